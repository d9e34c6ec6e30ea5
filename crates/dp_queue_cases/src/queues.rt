//! Queues, how they load and what their functions answer, worked out by hand from the rules.
mod every_fault;
mod files;
mod manual;
mod offers;
mod render;
mod rows;
mod sizes;
mod steps;

use crate::queues::every_fault::EveryQueueFault;
use crate::queues::render::{push_fault, queues_text};
use crate::queues::sizes::{count_of, file_of, push_counts};
use crate::queues::steps::take;
use dp_case_tables::{Question, bytes_of, check_all};
use dp_queue::{NoMemory, QueueFault, Queues};
use std::alloc::Global;
use std::test::Fail;

/// The result of loading a file of queues.
struct QueueLoads;

impl Question for QueueLoads {
    fn answer(alloc: Global, asked: &str) -> Result<String, Fail> {
        let text = bytes_of(alloc, asked)?;
        let read = Queues::load(alloc, &text);
        let got = queues_text(alloc, &read)?;
        Ok(got)
    }
}

/// The counts of what a file of many members or queues loads as.
struct LoadedCounts;

impl Question for LoadedCounts {
    fn answer(alloc: Global, asked: &str) -> Result<String, Fail> {
        let (word, count) = asked.split_once(' ').unwrap_or((asked, ""));
        let text = file_of(alloc, word, count_of(count))?;
        counts_of(alloc, text.as_bytes())
    }
}

fn counts_text(alloc: Global, queues: &Queues) -> Result<String, Fail> {
    let mut out = String::new(alloc);
    push_counts(&mut out, queues)?;
    Ok(out)
}

fn counts_of(alloc: Global, text: &[u8]) -> Result<String, Fail> {
    match Queues::load(alloc, text) {
        Ok(queues) => counts_text(alloc, &queues),
        Err(fault) => fault_text(alloc, fault),
    }
}

/// The answers of the queues of a file to steps separated by ` ; `, one after another.
struct Acts;

fn take_steps(
    alloc: Global,
    out: &mut String,
    queues: &mut Queues,
    steps: &str,
) -> Result<(), NoMemory> {
    for step in steps.split(" ; ") {
        if !out.is_empty() {
            out.push_str(", ")?;
        }
        take(alloc, out, queues, step)?;
    }
    Ok(())
}

fn act(alloc: Global, queues: &mut Queues, steps: &str) -> Result<String, Fail> {
    let mut out = String::new(alloc);
    take_steps(alloc, &mut out, queues, steps)?;
    Ok(out)
}

impl Question for Acts {
    fn answer(alloc: Global, asked: &str) -> Result<String, Fail> {
        let (file, steps) = asked.split_once(" ; ").unwrap_or((asked, "show"));
        let text = bytes_of(alloc, file)?;
        acts_of(alloc, &text, steps)
    }
}

fn acts_of(alloc: Global, text: &[u8], steps: &str) -> Result<String, Fail> {
    match Queues::load(alloc, text) {
        Ok(mut queues) => act(alloc, &mut queues, steps),
        Err(fault) => fault_text(alloc, fault),
    }
}

fn fault_text(alloc: Global, fault: QueueFault) -> Result<String, Fail> {
    let mut out = String::new(alloc);
    push_fault(&mut out, fault)?;
    Ok(out)
}

#[test]
fn queue_files_load(rt: HostRuntime) -> Result<(), Fail> {
    check_all::<QueueLoads>(rt.alloc(), files::TABLES)
}

#[test]
fn faults_of_queue_files(rt: HostRuntime) -> Result<(), Fail> {
    check_all::<EveryQueueFault>(rt.alloc(), &[every_fault::EVERY])
}

#[test]
fn large_queue_files_load(rt: HostRuntime) -> Result<(), Fail> {
    check_all::<LoadedCounts>(rt.alloc(), &[sizes::SIZES])
}

#[test]
fn queues_answer_steps(rt: HostRuntime) -> Result<(), Fail> {
    check_all::<Acts>(
        rt.alloc(),
        &[rows::WORKED, offers::OFFERS, manual::OFFERS, sizes::STEPS],
    )
}
