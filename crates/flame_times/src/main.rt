//! Renders the folded text on standard input as a flame graph: for measuring.
#![tactic(auto)]

use faults::Refused;
use flamebearer::{Flame, Tree, single};
use folded_reader::read_folded;
use json::Writer;
use profile_model::{Name, StackSums};
use std::alloc::{AllocError, Global};
use std::io::{self, Read};

/// The most nodes beside the root.
const MOST_NODES: u64 = 8192;

fn main(rt: HostRuntime) -> io::Result<()> {
    let alloc = rt.alloc();
    let flame = flame_of(alloc, &sums_of(&rt)?)?;
    rt.write_all(&text_of(alloc, &flame)?)
}

// The text is let go as soon as it is read.
fn sums_of(rt: &HostRuntime) -> io::Result<StackSums> {
    let alloc = rt.alloc();
    let mut bytes = Vec::new(alloc);
    rt.reader().read_to_end(&mut bytes)?;
    match read_folded(alloc, &bytes) {
        Ok(sums) => Ok(sums),
        Err(Refused::Fault(fault)) => {
            let text = fault.to_string(alloc)?;
            Err(io::Error::other(&text))
        }
        Err(Refused::Memory) => Err(io::Error::from(AllocError)),
    }
}

fn flame_of(alloc: Global, sums: &StackSums) -> Result<Flame, AllocError> {
    let tree = Tree::of(alloc, sums)?;
    single(alloc, &tree, MOST_NODES)
}

// `{"flamebearer":{"levels":[[0,5,0,0],[0,5,2,1]],"maxSelf":2,"names":["total","main"],"numTicks":5}}`
fn text_of(alloc: Global, flame: &Flame) -> Result<Vec<u8>, AllocError> {
    let mut writer = Writer::new(Vec::new(alloc));
    writer.begin_object()?;
    writer.key("flamebearer")?;
    writer.begin_object()?;
    put_levels(&mut writer, &flame.levels)?;
    writer.key("maxSelf")?;
    writer.u64(flame.max_self)?;
    put_names(&mut writer, &flame.names)?;
    writer.key("numTicks")?;
    writer.u64(flame.ticks)?;
    writer.end_object()?;
    writer.end_object()?;
    Ok(writer.into_inner())
}

fn put_levels(writer: &mut Writer, levels: &[Vec<u64>]) -> Result<(), AllocError> {
    writer.key("levels")?;
    writer.begin_array()?;
    for level in levels {
        put_level(writer, level)?;
    }
    writer.end_array()
}

fn put_level(writer: &mut Writer, level: &[u64]) -> Result<(), AllocError> {
    writer.begin_array()?;
    for number in level {
        writer.u64(*number)?;
    }
    writer.end_array()
}

fn put_names(writer: &mut Writer, names: &[Name]) -> Result<(), AllocError> {
    writer.key("names")?;
    writer.begin_array()?;
    for name in names {
        writer.string(name.as_str())?;
    }
    writer.end_array()
}
