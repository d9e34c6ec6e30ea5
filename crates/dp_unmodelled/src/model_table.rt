//! The table of a run without `--asterisk`, which says of the functions which it has.
ghost use Rattle.std.specs.Prelude.{◌≡◌};

use dp_app::{AppNumber, AppTable, Cell, KnownTable, Move};
use dp_conf::NoMemory;
use dp_table::StandardApps;
use dp_vars::{
    Counts, ExpressionReading, FoundValue, FunctionName, FunctionValue, Functions, Scope,
    SetTarget, StandardFunctions,
};
use std::alloc::Global;

/// The functions of the program without `--asterisk`, with the same values. Only those are known that the program has.
pub(crate) struct ModelledFunctions;

impl Functions for ModelledFunctions {
    ghost use Rattle.dp_unmodelled.specs.Modelled.{modelled_functions};

    ghost table = { modelled_functions };

    fn value<'a, B, C: Counts>(
        alloc: Global,
        scope: &Scope<'a, B, C>,
        name: FunctionName<'_>,
        argument: &[u8],
    ) -> Result<FunctionValue<'a>, NoMemory> {
        let found = StandardFunctions::value(alloc, scope, name, argument)?;
        Ok(FunctionValue {
            value: found.value,
            is_known: name.known_function().is_some(),
        })
    }

    fn variable<'a, B, C: Counts>(scope: &Scope<'a, B, C>, name: &[u8]) -> FoundValue<'a> {
        StandardFunctions::variable(scope, name)
    }

    fn knows_name<B, C: Counts>(_scope: &Scope<'_, B, C>, _name: &[u8]) -> bool {
        true
    }

    fn reads(_alloc: Global, _text: &[u8]) -> Result<bool, NoMemory> {
        Ok(true)
    }

    fn expression(_alloc: Global, _body: &[u8]) -> Result<ExpressionReading, NoMemory> {
        Ok(ExpressionReading::Value)
    }

    fn target(name: &[u8]) -> SetTarget<'_> {
        SetTarget::Variable(name)
    }
}

/// The applications of the program without `--asterisk`, over those functions.
pub(crate) struct ModelledApps;

impl AppTable for ModelledApps {
    ghost use Rattle.dp_table.specs.Standard.{standard_blind, standard_lawful, standard_rows, standard_touches};

    ghost rows = { standard_rows };

    ghost touches = { standard_touches };

    ghost lawful = { standard_lawful };

    ghost blind = { standard_blind };

    type Functions = ModelledFunctions;

    fn number_of(name: &[u8]) -> Option<AppNumber> {
        StandardApps::number_of(name)
    }

    fn dispatch(
        alloc: Global,
        name: &[u8],
        arguments: &[u8],
        cell: &mut Cell,
    ) -> Result<Option<Move>, NoMemory> {
        StandardApps::dispatch(alloc, name, arguments, cell)
    }
}

impl KnownTable for ModelledApps {
    ghost use Rattle.dp_app.specs.Knowledge.{all_look, asks_nothing};
    ghost use Rattle.dp_table.specs.Standard.{standard_rows};

    ghost knowledge = { asks_nothing };

    ghost overlooks = { all_look standard_rows };

    fn looks_at_arguments(_name: &[u8]) -> bool {
        true
    }

    fn unknown_need<B, C: Counts>(
        alloc: Global,
        _scope: &Scope<'_, B, C>,
        _name: &[u8],
        _arguments: &[u8],
    ) -> Result<Vec<u8>, NoMemory> {
        Ok(Vec::new(alloc))
    }
}
