//! The dialplan in force in a verbose run: where the lines of its text come from, and the lines of its entries.
ghost use Rattle.std.specs.Prelude.{◌≡◌, IfOk, IfErr, false};
ghost use Rattle.std.specs.Option.{option_map};
ghost use Rattle.dp_conf.specs.Answers.{Refuses};
ghost use Rattle.dp_commands.specs.Faults.{is_write_failed, reason_of};
ghost use Rattle.dp_commands.specs.LinePlaces.{places_of};
ghost use Rattle.dp_commands.specs.Run.{plan_fault};
ghost use Rattle.dp_commands.specs.Verbose as spec;
ghost use Rattle.dp_plan.specs.Loaded.{plan_and_notes};

use crate::fault::PbxFault;
use crate::line_places::LinePlaces;
use dp_machine::{EntryId, Event};
use dp_plan::{Dialplan, EntryLines, LoadedPlan, NoMemory};
use std::alloc::Global;
use std::marker::Model;

/// The names of the files of a run's dialplans, as a verbose run prints them.
#[derive(Clone, Copy)]
pub struct PlanNames<'a> {
    /// The name of the dialplan's file.
    pub plan: &'a str,
    /// The name of the second dialplan's file, if there is one.
    pub second_plan: Option<&'a str>,
}

impl<'a> PlanNames<'a> {
    ghost use Rattle.std.specs.Prelude.{◌≡◌};
    ghost use Rattle.std.specs.Option.{option_map};
    ghost use Rattle.dp_commands.specs.LinePlaces.{in_file, places_of};

    /// Where the lines of the dialplans come from: each dialplan is the text of its file.
    pub fn places(self) -> PlanPlaces<'a>
        ensures plan { places_of result.plan ≡ in_file self.entry.plan.now }
        ensures second { option_map places_of result.second_plan
            ≡ option_map (λ name. in_file name) (option_map (λ name. name.now) self.entry.second_plan) }
    {
        let second_plan = match self.second_plan {
            Some(name) => Some(LinePlaces::InFile(name)),
            None => None,
        };
        PlanPlaces {
            plan: LinePlaces::InFile(self.plan),
            second_plan,
        }
    }
}

/// Where the lines of a run's dialplans come from, as a verbose run prints them.
#[derive(Clone, Copy)]
pub struct PlanPlaces<'a> {
    /// Where the lines of the dialplan come from.
    pub plan: LinePlaces<'a>,
    /// Where the lines of the second dialplan come from, if there is one.
    pub second_plan: Option<LinePlaces<'a>>,
}

/// The lines of the entries of a dialplan's text, or its fault.
fn load_lines(alloc: Global, text: &[u8]) -> Result<EntryLines, PbxFault>
    ensures lines { IfOk result (λ lines. lines ≡ spec.lines_in text.now) }
    ensures fault { IfErr result (λ fault. Refuses (reason_of fault) (plan_fault (plan_and_notes text.now))) }
    ensures quiet { is_write_failed result ≡ false }
{
    let loaded = Dialplan::load_with_lines(alloc, text)?;
    let LoadedPlan {
        plan: _,
        notes: _,
        lines,
    } = loaded;
    Ok(lines)
}

/// The dialplan in force. A contract sees it as where its lines come from, where those of the second dialplan do, and the lines of its
/// entries.
#[derive(Drop)]
pub(crate) struct PlanInForce<'a> {
    places: LinePlaces<'a>,
    second_places: LinePlaces<'a>,
    lines: EntryLines,
}

impl<'a> Model for PlanInForce<'a> {
    ghost use Rattle.dp_commands.specs.LinePlaces.{places_of};
    ghost use Rattle.dp_commands.specs.Verbose.{InForce};

    ghost Value = { InForce };

    ghost view = { λ plan. record { places = places_of plan.places; second_places = places_of plan.second_places; lines = plan.lines } };
}

impl<'a> PlanInForce<'a> {
    ghost use Rattle.std.specs.Prelude.{◌≡◌, OnOk};
    ghost use Rattle.std.specs.Option.{option_map};
    ghost use Rattle.dp_commands.specs.LinePlaces.{places_of};
    ghost use Rattle.dp_commands.specs.Verbose as spec;
    ghost use Rattle.dp_plan.specs.Lookup.{line_at};

    /// The first dialplan of a run, with the lines of its entries.
    fn first(places: PlanPlaces<'a>, lines: EntryLines) -> Self
        ensures { result ≡ record {
          places = places_of places.entry.plan;
          second_places = spec.second_or_none (option_map places_of places.entry.second_plan);
          lines = lines;
        } }
    {
        PlanInForce {
            places: places.plan,
            second_places: second_or_none(places.second_plan),
            lines,
        }
    }

    /// Where its lines come from.
    pub(crate) fn places(&self) -> LinePlaces<'a>
        ensures { places_of result ≡ self.now.places }
    {
        self.places
    }

    /// The line of the entry with these numbers, or None if there is no such entry.
    pub(crate) fn line(&self, id: EntryId) -> Option<usize>
        ensures { result ≡ line_at self.now.lines id }
    {
        self.lines.line(id)
    }

    /// Continues after an event, given whether the event was refused.
    pub(crate) fn go_on(
        &mut self,
        alloc: Global,
        event: &Event,
        refused: bool,
    ) -> Result<(), NoMemory>
        ensures { OnOk result (self.new ≡ spec.in_force_by self.old event.now refused) }
    {
        match event {
            Event::Reload { text } if !refused => self.put_second(alloc, text.bytes()),
            _ => Ok(()),
        }
    }

    /// Puts the second dialplan in force, which has this text. The text has loaded before, so it fails only if memory runs out.
    fn put_second(&mut self, alloc: Global, text: &[u8]) -> Result<(), NoMemory>
        ensures { OnOk result (self.new ≡ spec.with_second self.old text.now) }
    {
        match load_lines(alloc, text) {
            Ok(lines) => {
                self.places = self.second_places;
                self.lines = lines;
                Ok(())
            }
            Err(_) => Err(NoMemory),
        }
    }
}

/// Where the lines of the second dialplan come from; without one they come from a file without a name.
fn second_or_none<'a>(places: Option<LinePlaces<'a>>) -> LinePlaces<'a>
    ensures { places_of result ≡ spec.second_or_none (option_map places_of places.entry) }
{
    match places {
        Some(places) => places,
        None => LinePlaces::InFile(""),
    }
}

/// The dialplan in force before the first event, which has this text, or the fault of the text.
pub(crate) fn first_in_force_at<'a>(
    alloc: Global,
    places: PlanPlaces<'a>,
    text: &[u8],
) -> Result<PlanInForce<'a>, PbxFault>
    ensures plan { IfOk result (λ plan. plan ≡ spec.first_in_force_at (places_of places.entry.plan)
        (option_map places_of places.entry.second_plan) text.now) }
    ensures fault { IfErr result (λ fault. Refuses (reason_of fault) (plan_fault (plan_and_notes text.now))) }
    ensures quiet { is_write_failed result ≡ false }
{
    match load_lines(alloc, text) {
        Ok(lines) => Ok(PlanInForce::first(places, lines)),
        Err(fault) => Err(fault),
    }
}

/// The same of dialplans that are the texts of their files.
pub(crate) fn first_in_force<'a>(
    alloc: Global,
    names: PlanNames<'a>,
    text: &[u8],
) -> Result<PlanInForce<'a>, PbxFault>
    ensures plan { IfOk result (λ plan. plan ≡ spec.first_in_force names.entry.plan.now
        (option_map (λ name. name.now) names.entry.second_plan) text.now) }
    ensures fault { IfErr result (λ fault. Refuses (reason_of fault) (plan_fault (plan_and_notes text.now))) }
    ensures quiet { is_write_failed result ≡ false }
{
    first_in_force_at(alloc, names.places(), text)
}
