// A message that was read.
ghost use Rattle.std.specs.Prelude.{◌≡◌, ◌<◌, length, map, Some, slice_get};
ghost use Rattle.pprof_message.specs.Gathered.{sample_in, location_in, gathered_pprof, IsEven};

use crate::gathered::Gathered;
use crate::lists::{Function, LocationRef, SampleRef, ValueType};
use std::marker::Model;

/// The message of a profile. Its texts lie in the bytes that it was read from.
#[derive(Debug, Drop)]
pub struct PprofMessage<'a> {
    gathered: Gathered<'a>,
}

impl<'a> Model for PprofMessage<'a> {
    ghost use Rattle.pprof_message.specs.Pprof.{Pprof};

    ghost Value = { Pprof };

    ghost use Rattle.pprof_message.specs.Gathered.{gathered_pprof, IsEven};

    ghost view = { λ m. gathered_pprof m.gathered };

    ghost invariant = { λ m. IsEven m.gathered };
}

impl<'a> PprofMessage<'a> {
    pub(crate) fn new(gathered: Gathered<'a>) -> PprofMessage<'a>
        requires { IsEven gathered }
        ensures { result ≡ gathered_pprof gathered.entry }
    {
        PprofMessage { gathered }
    }

    pub fn sample_types(&self) -> &[ValueType]
        ensures { result.now ≡ self.now.sample_types }
    {
        &self.gathered.sample_types
    }

    pub fn functions(&self) -> &[Function]
        ensures { result.now ≡ self.now.functions }
    {
        &self.gathered.functions
    }

    /// The string table. A text needn't be UTF-8.
    pub fn texts(&self) -> &[&'a [u8]]
        ensures { map (λ text. text.now) result.now ≡ self.now.texts }
    {
        &self.gathered.texts
    }

    pub fn time_nanos(&self) -> i64
        ensures { result ≡ self.now.time_nanos }
    {
        self.gathered.time_nanos.cast_signed()
    }

    pub fn period_type(&self) -> ValueType
        ensures { result ≡ self.now.period_type }
    {
        let numbers = self.gathered.period_type;
        ValueType {
            kind: numbers[1].cast_signed(),
            unit: numbers[2].cast_signed(),
        }
    }

    /// The count of samples.
    pub fn samples(&self) -> usize
        ensures { result ≡ length self.now.samples }
    {
        self.gathered.samples.location_ids.len()
    }

    pub fn sample(&self, i: usize) -> SampleRef<'_>
        requires { i < length self.now.samples }
        ensures { slice_get self.now.samples i ≡ Some (sample_in result) }
    {
        let samples = &self.gathered.samples;
        SampleRef {
            location_ids: samples.location_ids.get(i),
            values: samples.values.get(i),
            labels: samples.labels.get(i),
        }
    }

    /// The count of locations.
    pub fn locations(&self) -> usize
        ensures { result ≡ length self.now.locations }
    {
        self.gathered.locations.heads.len()
    }

    pub fn location(&self, i: usize) -> LocationRef<'_>
        requires { i < length self.now.locations }
        ensures { slice_get self.now.locations i ≡ Some (location_in result) }
    {
        let locations = &self.gathered.locations;
        let head = locations.heads[i];
        LocationRef {
            id: head.id,
            address: head.address,
            lines: locations.lines.get(i),
        }
    }
}
