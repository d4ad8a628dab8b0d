//! Reads pprofs as the rows of pushes, and so many times makes what a query comes to over them: for measuring.
#![tactic(auto)]

mod answers;
mod rows;

use answers::{kind, label_sets, merged, series};
use faults::Refused;
use pprof_writer::write_pprof;
use rows::parts_of;
use segment_file::Part;
use std::alloc::Global;
use std::{env, fmt, io};

const USAGE: &str =
    "usage: merge_times rows|merge|points|sets|write TIMES PPROF.., each pprof in a file named after its service";

fn main(rt: HostRuntime) -> io::Result<()> {
    let words = words_of(&rt)?;
    match command_of(&words) {
        Some(command) => run(&rt, &command),
        None => println!(rt; "{USAGE}"),
    }
}

#[derive(Clone, Copy)]
enum Task {
    Rows,
    Merge,
    Points,
    Sets,
    Write,
}

#[derive(Clone, Copy)]
struct Command<'w> {
    task: Task,
    times: u32,
    paths: &'w [String],
}

fn command_of(words: &[String]) -> Option<Command<'_>> {
    let (task, words) = words.split_first()?;
    let (times, paths) = words.split_first()?;
    Some(Command {
        task: task_of(task.as_str())?,
        times: times.parse::<u32>().ok()?,
        paths,
    })
}

fn task_of(word: &str) -> Option<Task> {
    match word {
        "rows" => Some(Task::Rows),
        "merge" => Some(Task::Merge),
        "points" => Some(Task::Points),
        "sets" => Some(Task::Sets),
        "write" => Some(Task::Write),
        _ => None,
    }
}

// The words after the program's name.
fn words_of(rt: &HostRuntime) -> io::Result<Vec<String>> {
    let mut words = Vec::new(rt.alloc());
    for word in env::args(rt)?.skip(1) {
        words.push(word)?;
    }
    Ok(words)
}

fn run(rt: &HostRuntime, command: &Command) -> io::Result<()> {
    let parts = parts_of(rt, command.paths)?;
    for _ in 1..command.times {
        make(rt.alloc(), command.task, &parts)?;
    }
    tell(rt, command.task, &parts)
}

// Makes the answer, and lets it go.
fn make(alloc: Global, task: Task, parts: &[Part]) -> io::Result<()> {
    match task {
        Task::Rows => {}
        Task::Merge | Task::Write => {
            let _ = merged(alloc, parts)?;
        }
        Task::Points => {
            let _ = series(alloc, parts)?;
        }
        Task::Sets => {
            let _ = label_sets(alloc, parts)?;
        }
    }
    Ok(())
}

// Makes the answer, and tells how much it is, or writes it whole.
fn tell(rt: &HostRuntime, task: Task, parts: &[Part]) -> io::Result<()> {
    match task {
        Task::Rows => tell_rows(rt, parts),
        Task::Merge => tell_merge(rt, parts),
        Task::Points => tell_points(rt, parts),
        Task::Sets => tell_sets(rt, parts),
        Task::Write => write(rt, parts),
    }
}

fn tell_rows(rt: &HostRuntime, parts: &[Part]) -> io::Result<()> {
    for part in parts {
        println!(rt;
            "{} rows of pushes {} to {}",
            part.rows.len(),
            part.from,
            part.until
        )?;
    }
    Ok(())
}

fn tell_merge(rt: &HostRuntime, parts: &[Part]) -> io::Result<()> {
    let sums = merged(rt.alloc(), parts)?;
    println!(rt; "{} stacks, {} in all", sums.len(), sums.total())
}

fn tell_points(rt: &HostRuntime, parts: &[Part]) -> io::Result<()> {
    for one in &series(rt.alloc(), parts)? {
        println!(rt; "{} points", one.points.len())?;
    }
    Ok(())
}

fn tell_sets(rt: &HostRuntime, parts: &[Part]) -> io::Result<()> {
    let sets = label_sets(rt.alloc(), parts)?;
    println!(rt; "{} label sets", sets.len())
}

fn write(rt: &HostRuntime, parts: &[Part]) -> io::Result<()> {
    let alloc = rt.alloc();
    let sums = merged(alloc, parts)?;
    rt.write_all(&write_pprof(alloc, &kind(alloc)?, &sums)?)
}

// The error that says why a call was refused.
fn stopped<F: fmt::Display + Drop>(alloc: Global, refused: Refused<F>) -> io::Error {
    match refused.to_string(alloc) {
        Ok(text) => io::Error::other(&text),
        Err(error) => io::Error::from(error),
    }
}
