//! Queues rendered as one line of text.
use dp_queue::{
    Agent, AgentState, EmptyRule, Member, NoMemory, Queue, QueueFault, Queues, Settings, Strategy,
};
use std::alloc::Global;

fn strategy_word(strategy: Strategy) -> &'static str {
    match strategy {
        Strategy::RingAll => "ringall",
        Strategy::Linear => "linear",
        Strategy::LeastRecent => "leastrecent",
        Strategy::FewestCalls => "fewestcalls",
        Strategy::RrMemory => "rrmemory",
    }
}

fn rule_word(rule: EmptyRule) -> &'static str {
    match rule {
        EmptyRule::Yes => "yes",
        EmptyRule::No => "no",
        EmptyRule::Strict => "strict",
        EmptyRule::Loose => "loose",
    }
}

fn push_settings(out: &mut String, settings: &Settings) -> Result<(), NoMemory> {
    write!(
        out,
        " {} {} {} {} ({})",
        strategy_word(settings.strategy),
        settings.maxlen,
        rule_word(settings.joinempty),
        rule_word(settings.leavewhenempty),
        settings.context
    )
}

fn push_name(out: &mut String, agents: &[Agent], number: usize) -> Result<(), NoMemory> {
    match agents.get(number) {
        Some(agent) => write!(out, " {}", agent.name),
        None => out.push_str(" unknown"),
    }
}

fn push_marks(out: &mut String, member: &Member) -> Result<(), NoMemory> {
    if member.is_dynamic {
        out.push_str(" dynamic")?;
    }
    if member.is_paused {
        out.push_str(" paused")?;
    }
    if member.calls > 0 {
        write!(out, " {} calls last {}", member.calls, member.last)?;
    }
    Ok(())
}

fn push_member(out: &mut String, agents: &[Agent], member: &Member) -> Result<(), NoMemory> {
    push_name(out, agents, member.agent)?;
    write!(out, "/{}", member.penalty)?;
    push_marks(out, member)
}

fn push_waiting(out: &mut String, queue: &Queue) -> Result<(), NoMemory> {
    for channel in queue.waiting() {
        write!(out, " #{channel}")?;
    }
    Ok(())
}

fn push_queue(
    out: &mut String,
    agents: &[Agent],
    queue: &Queue,
    has_settings: bool,
) -> Result<(), NoMemory> {
    write!(out, "<{}", queue.name())?;
    if has_settings {
        push_settings(out, queue.settings())?;
    }
    push_waiting(out, queue)?;
    for member in queue.members() {
        push_member(out, agents, member)?;
    }
    out.push_str(">")
}

fn push_agent(out: &mut String, agent: &Agent) -> Result<(), NoMemory> {
    write!(out, "{{{}", agent.name)?;
    match agent.state {
        AgentState::Idle => {}
        AgentState::Ringing { queue, channel } => write!(out, " rings {queue} #{channel}")?,
        AgentState::Talking { queue, channel } => write!(out, " talks {queue} #{channel}")?,
    }
    out.push_str("}")
}

/// Adds all queues, each as `<NAME`, its settings if they are wanted, its calls ` #CHANNEL` and its members ` NAME/PENALTY`; then all
/// agents as `{NAME}`, each with its state, and the count of finished calls.
pub(super) fn push_queues(
    out: &mut String,
    queues: &Queues,
    has_settings: bool,
) -> Result<(), NoMemory> {
    for queue in queues.queues() {
        push_queue(out, queues.agents(), queue, has_settings)?;
    }
    for agent in queues.agents() {
        push_agent(out, agent)?;
    }
    let finished = queues.finished();
    if finished > 0 {
        write!(out, " finished {finished}")?;
    }
    Ok(())
}

/// A fault as `fault CODE` and its text; out of memory has no code.
pub(super) fn push_fault(out: &mut String, fault: QueueFault) -> Result<(), NoMemory> {
    match fault {
        QueueFault::Line { line: _, kind } => write!(out, "fault {} {fault}", kind.code()),
        QueueFault::NoMemory => write!(out, "fault {fault}"),
    }
}

/// The result of loading a file of queues.
pub(super) fn queues_text(
    alloc: Global,
    read: &Result<Queues, QueueFault>,
) -> Result<String, NoMemory> {
    let mut out = String::new(alloc);
    match read {
        Ok(queues) => push_queues(&mut out, queues, true)?,
        Err(fault) => push_fault(&mut out, *fault)?,
    }
    Ok(out)
}
