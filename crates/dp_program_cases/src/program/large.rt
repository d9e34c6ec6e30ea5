//! Texts that are larger than sixteen bits can count, and words that are longer than eight bits can count.
use dp_plan::NoMemory;
use dp_program_fixture::{check_line, check_table, make_folder, write_file};
use std::alloc::Global;
use std::rt::Files;
use std::sync::Wait;
use std::test::Fail;
use std::thread::Threads;
use std::{fs, process};

/// A text repeated this number of times.
fn repeat_piece(alloc: Global, piece: &str, count: u32) -> Result<String, NoMemory> {
    let mut all = String::new(alloc);
    for _turn in 0..count {
        all.push_str(piece)?;
    }
    Ok(all)
}

/// This number of contexts, each with one entry.
fn contexts(alloc: Global, count: u32) -> Result<String, NoMemory> {
    let mut all = String::new(alloc);
    for number in 0..count {
        write!(all, "[c{number}]\nexten => 1,1,A\n")?;
    }
    Ok(all)
}

/// A fault in line 70,002.
const TALL: &str = "\
check @tall→1→→fault 4 NoEquals line 70002¶
match @tall main s→1→→fault 4 NoEquals line 70002¶
run @tall @tall.script→1→→fault 4 NoEquals line 70002¶
run @first @tall.script→1→→fault 70 BadScript line 70002¶
";

/// Files of more than 70,000 bytes, which are read to their ends.
fn check_tall<R: Files + Threads + Wait + Sync + AllocGlobal + Clone + Drop>(
    rt: &R,
    folder: &str,
) -> Result<(), Fail> {
    let mut plan = repeat_piece(rt.alloc(), "\n", 70_000)?;
    plan.push_str("[main]\nabc\n")?;
    let mut script = repeat_piece(rt.alloc(), "\n", 70_000)?;
    script.push_str("step 1\njump\n")?;
    write_file(rt, folder, "tall", plan.as_bytes())?;
    write_file(rt, folder, "tall.script", script.as_bytes())?;
    check_table(rt, folder, TALL)
}

/// 65,600 contexts and entries, in 131,200 lines.
fn check_many<R: Files + Threads + Wait + Sync + AllocGlobal + Clone + Drop>(
    rt: &R,
    folder: &str,
) -> Result<(), Fail> {
    let plan = contexts(rt.alloc(), 65_600)?;
    write_file(rt, folder, "many", plan.as_bytes())?;
    check_line(
        rt,
        folder,
        "check @many",
        "0→ok 65600 contexts 65600 entries¶→",
    )
}

/// A dialplan with an extension of this name, and with arguments of the same length.
fn wide_plan(alloc: Global, name: &str) -> Result<String, NoMemory> {
    format!(in alloc;
        "[main]\nexten => s,1,NoOp({name})\nexten => s,2,Goto({name},1)\nexten => {name},1,Hangup()\n"
    )
}

/// A script that reaches the extension, and then asks for one that is missing.
fn wide_script(alloc: Global, name: &str) -> Result<String, NoMemory> {
    format!(in alloc; "start main s\nstep 1 3\nstart main {name}0\nstep 2\n")
}

/// The output of the script.
fn wide_trace(alloc: Global, name: &str) -> Result<String, NoMemory> {
    format!(in alloc;
        "0→started 1¶ran 1 main,s,1 NoOp -> ready main,s,2¶ran 1 main,s,2 Goto -> ready main,{name},1¶\
ran 1 main,{name},1 Hangup -> ended¶started 2¶no entry 2 -> ended¶→"
    )
}

/// Arguments of 300 bytes, an extension of the same length, and one of 301 bytes that is missing.
fn check_wide<R: Files + Threads + Wait + Sync + AllocGlobal + Clone + Drop>(
    rt: &R,
    folder: &str,
) -> Result<(), Fail> {
    let name = repeat_piece(rt.alloc(), "1234567890", 30)?;
    let plan = wide_plan(rt.alloc(), &name)?;
    let script = wide_script(rt.alloc(), &name)?;
    let want = wide_trace(rt.alloc(), &name)?;
    write_file(rt, folder, "wide", plan.as_bytes())?;
    write_file(rt, folder, "wide.script", script.as_bytes())?;
    check_line(rt, folder, "run @wide @wide.script", &want)
}

fn check_all<R: Files + Threads + Wait + Sync + AllocGlobal + Clone + Drop>(
    rt: &R,
    folder: &str,
) -> Result<(), Fail> {
    check_tall(rt, folder)?;
    check_wide(rt, folder)
}

#[test]
fn files_of_many_lines_and_long_names_are_read(rt: HostRuntime) -> Result<(), Fail> {
    let folder = make_folder(&rt, "large", process::id(rt.process()))?;
    check_all(&rt, &folder)?;
    fs::remove_dir_all(&rt, folder.as_str())?;
    Ok(())
}

#[test]
fn many_contexts_are_counted(rt: HostRuntime) -> Result<(), Fail> {
    let folder = make_folder(&rt, "many", process::id(rt.process()))?;
    check_many(&rt, &folder)?;
    fs::remove_dir_all(&rt, folder.as_str())?;
    Ok(())
}
