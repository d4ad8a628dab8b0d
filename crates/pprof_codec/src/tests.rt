// Worked profiles, and what no clause says: that the calls succeed with ample memory, and the texts of the faults.
use crate::{Base, Member, PprofFault, read_pprof};
use faults::{Place, Refused};
use profile_model::{LabelSet, Name};
use std::alloc::Global;
use std::test::Fail;

// One sample type, a sample of one location, the location's two lines, their functions, and the texts.
const TYPE: &[u8] = b"\x0A\x04\x08\x01\x10\x02";

const SAMPLE: &[u8] = b"\x12\x06\x0A\x01\x01\x12\x01\x07";

const LOCATION: &[u8] = b"\x22\x0A\x08\x01\x22\x02\x08\x01\x22\x02\x08\x02";

const FUNCTIONS: &[u8] = b"\x2A\x04\x08\x01\x10\x03\x2A\x04\x08\x02\x10\x04";

const TEXTS: &[u8] = b"\x32\x00\x32\x07samples\x32\x05count\x32\x04leaf\x32\x04main";

fn base(alloc: Global) -> Result<Base, Fail> {
    let labels = LabelSet::of_service(alloc, Name::from_text(alloc, "app")?)?;
    let name = Name::cleaned(alloc, "process_cpu")?;
    Ok(Base {
        labels,
        name,
        fallback_ms: 1_700_000_000_000,
    })
}

fn joined(alloc: Global, parts: &[&[u8]]) -> Result<Vec<u8>, Fail> {
    let mut bytes = Vec::new(alloc);
    for part in parts {
        bytes.extend_from_slice(part)?;
    }
    Ok(bytes)
}

// The profiles of a message: a line of the labels, the type and the time, and one of each stack.
fn told(alloc: Global, parts: &[&[u8]]) -> Result<String, Fail> {
    let bytes = joined(alloc, parts)?;
    let profiles = read_pprof(alloc, &bytes, &base(alloc)?)?;
    let mut text = String::new(alloc);
    for profile in &profiles {
        text.push_str(&format!(in alloc; "{profile}")?)?;
    }
    Ok(text)
}

#[test]
fn a_profile_is_read_from_the_leaf_to_the_root(rt: HostRuntime) -> Result<(), Fail> {
    let text = told(rt.alloc(), &[TYPE, SAMPLE, LOCATION, FUNCTIONS, TEXTS])?;
    assert_eq!(rt;
        text.as_str(),
        "service_name=app process_cpu:samples:count:: 1700000000000\nmain;leaf 7\n"
    );
    Ok(())
}

#[test]
fn another_spelling_says_the_same(rt: HostRuntime) -> Result<(), Fail> {
    // The sample's numbers in fields of their own, one of them in nine bytes, and a field that isn't known.
    let sample = b"\x12\x0C\x08\x01\x10\x87\x80\x80\x80\x80\x80\x80\x80\x00";
    let text = told(
        rt.alloc(),
        &[TYPE, sample, LOCATION, FUNCTIONS, TEXTS, b"\x98\x06\x05"],
    )?;
    assert_eq!(rt;
        text.as_str(),
        "service_name=app process_cpu:samples:count:: 1700000000000\nmain;leaf 7\n"
    );
    Ok(())
}

#[test]
fn the_first_fault_is_told(rt: HostRuntime) -> Result<(), Fail> {
    let alloc = rt.alloc();
    let base = base(alloc)?;
    let cases: [(&[u8], &str, Place); 23] = [
        (b"\x08", "P1", Place::At(0)),
        (b"\x0B", "P1", Place::At(0)),
        (
            b"\x08\x80\x80\x80\x80\x80\x80\x80\x80\x80\x02",
            "P1",
            Place::At(0),
        ),
        (b"\x0A\x02\x08\x01", "P2", Place::Whole),
        (b"", "P2", Place::Whole),
        (b"\x32\x01a", "P2", Place::Whole),
        (b"\x32\x00\x32\x01\xFF", "P12", Place::At(1)),
        (b"\x32\x00\x0A\x04\x08\x05\x10\x00", "P3", Place::Pair(1, 0)),
        (b"\x32\x00\x5A\x02\x10\x01", "P3", Place::Pair(11, 0)),
        (b"\x32\x00\x2A\x00", "P4", Place::Pair(5, 0)),
        (
            b"\x32\x00\x2A\x02\x08\x01\x2A\x02\x08\x01",
            "P5",
            Place::Pair(5, 1),
        ),
        (b"\x32\x00\x2A\x04\x08\x01\x18\x01", "P3", Place::Pair(5, 0)),
        (b"\x32\x00\x22\x00", "P4", Place::Pair(4, 0)),
        (
            b"\x32\x00\x22\x02\x08\x01\x22\x02\x08\x01",
            "P5",
            Place::Pair(4, 1),
        ),
        (b"\x32\x00\x12\x03\x0A\x01\x05", "P6", Place::At(0)),
        (
            b"\x32\x00\x22\x06\x08\x01\x22\x02\x08\x09",
            "P7",
            Place::At(0),
        ),
        (b"\x32\x00\x0A\x00\x12\x00", "P8", Place::At(0)),
        (b"\x32\x00\x12\x04\x1A\x02\x08\x01", "P3", Place::Pair(2, 0)),
        (
            b"\x32\x00\x0A\x00\x12\x0B\x10\xFF\xFF\xFF\xFF\xFF\xFF\xFF\xFF\xFF\x01",
            "P9",
            Place::Pair(0, 0),
        ),
        (
            b"\x32\x00\x0A\x00\x12\x0A\x10\xFF\xFF\xFF\xFF\xFF\xFF\xFF\xFF\x7F\x12\x02\x10\x01",
            "P10",
            Place::At(0),
        ),
        (b"\x1F\x8B", "P13", Place::Whole),
        (b"\x1F\x8B\x08\x32\x00", "P13", Place::Whole),
        // The order is that of the checks, not that of the bytes.
        (
            b"\x2A\x00\x32\x00\x0A\x02\x08\x01\x32\x01\xFF",
            "P12",
            Place::At(1),
        ),
    ];
    for (bytes, code, place) in cases {
        let fault = match read_pprof(alloc, bytes, &base) {
            Err(Refused::Fault(fault)) => Some(fault),
            Ok(_) | Err(Refused::Memory) => None,
        };
        assert_eq!(rt; fault.map(|fault| fault.code()), Some(code), "{bytes:?}");
        if let Some(fault) = fault {
            assert_eq!(rt; fault.place(), place, "{bytes:?}");
        }
    }
    Ok(())
}

#[test]
fn a_negative_value_is_refused(rt: HostRuntime) -> Result<(), Fail> {
    let alloc = rt.alloc();
    let sample = b"\x12\x0F\x0A\x01\x01\x12\x0A\xFF\xFF\xFF\xFF\xFF\xFF\xFF\xFF\xFF\x01";
    let bytes = joined(alloc, &[TYPE, sample, LOCATION, FUNCTIONS, TEXTS])?;
    assert_eq!(rt;
        read_pprof(alloc, &bytes, &base(alloc)?).err(),
        Some(Refused::Fault(PprofFault::NegativeValue {
            sample: 0,
            value: 0
        }))
    );
    Ok(())
}

#[test]
fn inlined_lines_stand_above_their_caller(rt: HostRuntime) -> Result<(), Fail> {
    // The leaf's location has the lines leaf, which is inlined, and main. The location of its caller has the line start.
    let caller = b"\x22\x06\x08\x02\x22\x02\x08\x03\x2A\x04\x08\x03\x10\x05";
    let sample = b"\x12\x07\x0A\x02\x01\x02\x12\x01\x09";
    let text = told(
        rt.alloc(),
        &[
            TYPE,
            sample,
            LOCATION,
            caller,
            FUNCTIONS,
            TEXTS,
            b"\x32\x05start",
        ],
    )?;
    assert_eq!(rt;
        text.as_str(),
        "service_name=app process_cpu:samples:count:: 1700000000000\nstart;main;leaf 9\n"
    );
    Ok(())
}

#[test]
fn what_has_no_name_is_told_by_its_address_or_as_unknown(rt: HostRuntime) -> Result<(), Fail> {
    // Locations without lines: at address 0, and at 0xDEADBEEF. One whose line names no function. And functions
    // with a system name alone, and with no name.
    let locations =
        b"\x22\x02\x08\x01\x22\x08\x08\x02\x18\xEF\xFD\xB6\xF5\x0D\x22\x04\x08\x03\x22\x00";
    let lines = b"\x22\x0A\x08\x04\x22\x02\x08\x01\x22\x02\x08\x02";
    let functions = b"\x2A\x04\x08\x01\x18\x03\x2A\x02\x08\x02";
    let sample = b"\x12\x09\x0A\x04\x01\x02\x03\x04\x12\x01\x01";
    let text = told(
        rt.alloc(),
        &[TYPE, sample, locations, lines, functions, TEXTS],
    )?;
    assert_eq!(rt;
        text.as_str(),
        "service_name=app process_cpu:samples:count:: 1700000000000\n[unknown];leaf;[unknown];0xdeadbeef;0x0 1\n"
    );
    Ok(())
}

#[test]
fn a_function_has_its_name_before_its_system_name(rt: HostRuntime) -> Result<(), Fail> {
    let functions = b"\x2A\x06\x08\x01\x10\x03\x18\x04\x2A\x04\x08\x02\x10\x04";
    let text = told(rt.alloc(), &[TYPE, SAMPLE, LOCATION, functions, TEXTS])?;
    assert_eq!(rt;
        text.as_str(),
        "service_name=app process_cpu:samples:count:: 1700000000000\nmain;leaf 7\n"
    );
    Ok(())
}

#[test]
fn a_sample_without_locations_has_an_unknown_frame(rt: HostRuntime) -> Result<(), Fail> {
    let text = told(rt.alloc(), &[TYPE, b"\x12\x02\x10\x05", TEXTS])?;
    assert_eq!(rt;
        text.as_str(),
        "service_name=app process_cpu:samples:count:: 1700000000000\n[unknown] 5\n"
    );
    Ok(())
}

#[test]
fn equal_stacks_are_summed_and_zeros_dropped(rt: HostRuntime) -> Result<(), Fail> {
    // Two sample types. The stacks of locations 1 and 3 are equal; location 2 has a value of the second type alone.
    let types = b"\x0A\x04\x08\x01\x10\x02\x0A\x04\x08\x02\x10\x01";
    let samples =
        b"\x12\x07\x0A\x01\x01\x12\x02\x07\x01\x12\x07\x0A\x01\x02\x12\x02\x00\x05\x12\x07\x0A\x01\x03\x12\x02\x02\x00";
    let locations =
        b"\x22\x06\x08\x01\x22\x02\x08\x01\x22\x06\x08\x02\x22\x02\x08\x02\x22\x06\x08\x03\x22\x02\x08\x01";
    let text = told(rt.alloc(), &[types, samples, locations, FUNCTIONS, TEXTS])?;
    assert_eq!(rt;
        text.as_str(),
        "service_name=app process_cpu:samples:count:: 1700000000000\nleaf 9\nservice_name=app process_cpu:count:samples:: 1700000000000\nleaf 1\nmain 5\n"
    );
    Ok(())
}

#[test]
fn a_stack_spelled_by_other_locations_is_the_same(rt: HostRuntime) -> Result<(), Fail> {
    // Location 1 has the lines leaf and main. Locations 2 and 3 have one of them each, 3 by a function of its own.
    let samples =
        b"\x12\x06\x0A\x01\x01\x12\x01\x07\x12\x07\x0A\x02\x02\x03\x12\x01\x05\x12\x07\x0A\x02\x03\x02\x12\x01\x01";
    let locations =
        b"\x22\x06\x08\x02\x22\x02\x08\x01\x22\x06\x08\x03\x22\x02\x08\x09\x2A\x04\x08\x09\x10\x04";
    let text = told(
        rt.alloc(),
        &[TYPE, samples, LOCATION, locations, FUNCTIONS, TEXTS],
    )?;
    assert_eq!(rt;
        text.as_str(),
        "service_name=app process_cpu:samples:count:: 1700000000000\nleaf;main 1\nmain;leaf 12\n"
    );
    Ok(())
}

#[test]
fn frames_that_differ_in_their_last_byte_are_two(rt: HostRuntime) -> Result<(), Fail> {
    let samples = b"\x12\x06\x0A\x01\x01\x12\x01\x07\x12\x06\x0A\x01\x02\x12\x01\x05";
    let locations = b"\x22\x06\x08\x01\x22\x02\x08\x01\x22\x06\x08\x02\x22\x02\x08\x02";
    let texts = b"\x32\x00\x32\x07samples\x32\x05count\x32\x04leaf\x32\x04leag";
    let text = told(rt.alloc(), &[TYPE, samples, locations, FUNCTIONS, texts])?;
    assert_eq!(rt;
        text.as_str(),
        "service_name=app process_cpu:samples:count:: 1700000000000\nleaf 7\nleag 5\n"
    );
    Ok(())
}

#[test]
fn a_sample_type_without_stacks_has_its_profile(rt: HostRuntime) -> Result<(), Fail> {
    let bytes = joined(rt.alloc(), &[TYPE, LOCATION, FUNCTIONS, TEXTS])?;
    assert_eq!(rt; bytes.len(), 60);
    let text = told(rt.alloc(), &[TYPE, LOCATION, FUNCTIONS, TEXTS])?;
    assert_eq!(rt;
        text.as_str(),
        "service_name=app process_cpu:samples:count:: 1700000000000\n"
    );
    let none = told(rt.alloc(), &[b"\x32\x00"])?;
    assert_eq!(rt; none.as_str(), "");
    Ok(())
}

#[test]
fn packed_and_unpacked_numbers_are_mixed(rt: HostRuntime) -> Result<(), Fail> {
    // Location 1, and 2 and 1 packed; the values 3 packed and 4 in a field of its own.
    let types = b"\x0A\x04\x08\x01\x10\x02\x0A\x04\x08\x02\x10\x01";
    let sample = b"\x12\x0B\x08\x01\x0A\x02\x02\x01\x12\x01\x03\x10\x04";
    let locations = b"\x22\x06\x08\x01\x22\x02\x08\x01\x22\x06\x08\x02\x22\x02\x08\x02";
    let text = told(rt.alloc(), &[types, sample, locations, FUNCTIONS, TEXTS])?;
    assert_eq!(rt;
        text.as_str(),
        "service_name=app process_cpu:samples:count:: 1700000000000\nleaf;main;leaf 3\nservice_name=app process_cpu:count:samples:: 1700000000000\nleaf;main;leaf 4\n"
    );
    Ok(())
}

#[test]
fn the_time_is_that_of_the_message_rounded_down(rt: HostRuntime) -> Result<(), Fail> {
    let cases: [(&[u8], &str); 4] = [
        // 1,999,999 nanoseconds, 999,999, and -1; and of two the last.
        (b"\x48\xFF\x88\x7A", " 1\n"),
        (b"\x48\xBF\x84\x3D", " 0\n"),
        (
            b"\x48\xFF\xFF\xFF\xFF\xFF\xFF\xFF\xFF\xFF\x01",
            " 1700000000000\n",
        ),
        (b"\x48\xFF\x88\x7A\x48\x80\x89\x7A", " 2\n"),
    ];
    for (time, end) in cases {
        let text = told(rt.alloc(), &[TYPE, time, TEXTS])?;
        let mut wanted = String::new(rt.alloc());
        wanted.push_str("service_name=app process_cpu:samples:count::")?;
        wanted.push_str(end)?;
        assert_eq!(rt; text.as_str(), wanted.as_str());
    }
    Ok(())
}

#[test]
fn the_period_type_is_told_and_parts_are_cleaned(rt: HostRuntime) -> Result<(), Fail> {
    let texts = b"\x32\x00\x32\x08a:b{c}\"d\x32\x03cpu";
    let text = told(rt.alloc(), &[TYPE, b"\x5A\x04\x08\x02\x10\x01", texts])?;
    assert_eq!(rt;
        text.as_str(),
        "service_name=app process_cpu:a_b_c__d:cpu:cpu:a_b_c__d 1700000000000\n"
    );
    Ok(())
}

#[test]
fn a_sample_has_at_most_1024_frames(rt: HostRuntime) -> Result<(), Fail> {
    let alloc = rt.alloc();
    for (length, count, fault) in [
        (b"\x12\x80\x10", 1024, None),
        (
            b"\x12\x82\x10",
            1025,
            Some(Refused::Fault(PprofFault::TooDeep { sample: 0 })),
        ),
    ] {
        let mut bytes = joined(alloc, &[b"\x32\x00\x22\x02\x08\x01", length])?;
        for _ in 0..count {
            bytes.extend_from_slice(b"\x08\x01")?;
        }
        assert_eq!(rt;
            read_pprof(alloc, &bytes, &base(alloc)?).err(),
            fault,
            "at {count}"
        );
    }
    Ok(())
}

#[test]
fn a_frame_has_at_most_65535_bytes(rt: HostRuntime) -> Result<(), Fail> {
    let alloc = rt.alloc();
    for (length, count, fault) in [
        (b"\x32\xFF\xFF\x03", 65_535, None),
        (
            b"\x32\x80\x80\x04",
            65_536,
            Some(Refused::Fault(PprofFault::LongFrame { function: 0 })),
        ),
    ] {
        let mut bytes = joined(alloc, &[b"\x2A\x04\x08\x01\x10\x01\x32\x00", length])?;
        for _ in 0..count {
            bytes.push(b'f')?;
        }
        assert_eq!(rt;
            read_pprof(alloc, &bytes, &base(alloc)?).err(),
            fault,
            "at {count}"
        );
    }
    Ok(())
}

#[test]
fn there_are_at_most_4096_profiles(rt: HostRuntime) -> Result<(), Fail> {
    let alloc = rt.alloc();
    for (count, fault) in [
        (4096, None),
        (4097, Some(Refused::Fault(PprofFault::Weight))),
    ] {
        let mut bytes = joined(alloc, &[b"\x32\x00"])?;
        for _ in 0..count {
            bytes.extend_from_slice(b"\x0A\x00")?;
        }
        assert_eq!(rt;
            read_pprof(alloc, &bytes, &base(alloc)?).err(),
            fault,
            "at {count}"
        );
    }
    Ok(())
}

#[test]
fn a_fault_is_told_in_words(rt: HostRuntime) -> Result<(), Fail> {
    let (sample, number) = (2, 3);
    let member = Member::Function;
    for (fault, words) in [
        (PprofFault::Broken(7), "the field at byte 7 can't be read"),
        (
            PprofFault::NoEmptyText,
            "the string table doesn't begin with an empty text",
        ),
        (
            PprofFault::NoSuchText {
                member: Member::PeriodType,
                number: 0,
            },
            "period type 0 names a text that isn't there",
        ),
        (
            PprofFault::ZeroId { member, number },
            "function 3 has the id 0",
        ),
        (
            PprofFault::RepeatedId {
                member: Member::Location,
                number,
            },
            "location 3 has the id of an earlier one",
        ),
        (
            PprofFault::NoSuchLocation { sample },
            "sample 2 names a location that isn't there",
        ),
        (
            PprofFault::NoSuchFunction { location: 4 },
            "location 4 names a function that isn't there",
        ),
        (
            PprofFault::WrongValueCount { sample },
            "sample 2 hasn't one value for each sample type",
        ),
        (
            PprofFault::NegativeValue { sample, value: 1 },
            "value 1 of sample 2 is negative",
        ),
        (
            PprofFault::TooLarge { sample_type: 5 },
            "the values of sample type 5 are too large",
        ),
        (
            PprofFault::TooDeep { sample },
            "sample 2 has too many frames",
        ),
        (PprofFault::NotUtf8 { text: 9 }, "text 9 isn't UTF-8"),
        (PprofFault::Compressed, "the profile is compressed"),
        (
            PprofFault::LongFrame { function: 6 },
            "function 6 has a name that is too long",
        ),
        (PprofFault::Weight, "the profiles weigh too much"),
    ] {
        let told = Refused::Fault(fault).to_string(rt.alloc())?;
        assert_eq!(rt; told.as_str(), words);
    }
    let told = Refused::<PprofFault>::Memory.to_string(rt.alloc())?;
    assert_eq!(rt; told.as_str(), "out of memory");
    Ok(())
}
