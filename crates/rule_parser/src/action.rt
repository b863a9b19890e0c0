//! The actions of rules.
ghost use Rattle.std.specs.Prelude.{◌≡◌, IfOk};
ghost use Rattle.control_lines.specs.Views.{checked_now, value_now, pid_now, action_now};
ghost use Rattle.rule_parser.specs.Actions.{table_cause as cause_of, curve_read, series_read};
ghost use Rattle.rule_parser.specs.Actions.{constant_read, pid_part, pid_read};
ghost use Rattle.rule_parser.specs.Actions.{can_set as is_settable, setting_read, status_read};
ghost use Rattle.rule_parser.specs.Actions.{value_set, set_by, action_from, action_read};
ghost use Rattle.rule_parser.specs.internal.Views.{context_now};

use crate::context::Context;
use crate::keys::read_object;
use byte_edge::NoMemory;
use control_lines::{ActionText, Fault, PidText, ValueText, both};
use curves_series::{TableFault, TableNames};
use exact_fraction::frac::Frac;
use key_words::read_attribute;
use network_lines::{ValueKind, read_value};
use num_text::error::NumberFault;
use num_text::numbers::read_number;
use rule_types::{Action, Attr, Cause, CurveNo, ObjectNo, ObjectWord, PidSet, SeriesNo, What};
use std::alloc::Global;

/// The action that is written, or what is reported of it; `pids` is the number of the file's next
/// PID action (SWMM 5.2 manual, [CONTROLS] and modulated controls).
#[tactic(auto, unfolding(crate::specs::Actions::action_read))]
pub(crate) fn read_action<'a>(
    alloc: Global,
    context: Context<'_>,
    pids: u32,
    written: &ActionText<'a>,
) -> Result<Result<Action, Fault<'a>>, NoMemory>
    ensures { IfOk result (λ found. checked_now found
        ≡ action_read (context_now context.entry).objects (context_now context.entry).tables pids
        (action_now written.now)) }
{
    let target = &written.target;
    let object = read_object(alloc, context.objects, target.word, target.name)?;
    let attribute = read_attribute(target.attribute);
    match read_set(
        alloc,
        context.tables,
        pids,
        target.word,
        attribute,
        target.attribute,
        &written.value,
    ) {
        Ok(what) => Ok(action_from(&object, &what)),
        Err(_) => Err(NoMemory),
    }
}

/// The action on an object that is read.
#[tactic(auto, unfolding(control_lines::specs::Faults::both))]
fn action_from<'a>(
    object: &Result<ObjectNo, Fault<'a>>,
    what: &Result<What, Fault<'a>>,
) -> Result<Action, Fault<'a>>
    ensures { checked_now result ≡ action_from (checked_now object.now) (checked_now what.now) }
{
    match object {
        Ok(object) => match what {
            Ok(what) => Ok(Action {
                link: object.index,
                what: *what,
            }),
            Err(fault) => Err(*fault),
        },
        Err(fault) => match what {
            Ok(_) => Err(*fault),
            Err(other) => Err(fault.sooner(*other)),
        },
    }
}

/// The value that is set, where the attribute can be set.
fn read_set<'a>(
    alloc: Global,
    tables: &TableNames,
    pids: u32,
    word: ObjectWord,
    attribute: Option<Attr>,
    item: &'a [u8],
    value: &ValueText<'a>,
) -> Result<Result<What, Fault<'a>>, NoMemory>
    ensures { IfOk result (λ found. checked_now found
        ≡ set_by tables.now pids word attribute item.now (value_now value.now)) }
{
    if let Some(attribute) = attribute {
        if can_set(word, attribute) {
            return read_set_value(alloc, tables, pids, attribute, value);
        }
    }
    Ok(Err(Fault {
        cause: Cause::UnknownAttribute,
        token: item,
    }))
}

/// Whether an attribute of a link of a word can be set.
fn can_set(word: ObjectWord, attribute: Attr) -> bool
    ensures { result ≡ is_settable word attribute }
{
    match attribute {
        Attr::Status => matches!(word, ObjectWord::Conduit | ObjectWord::Pump),
        Attr::Setting => matches!(
            word,
            ObjectWord::Pump | ObjectWord::Orifice | ObjectWord::Weir | ObjectWord::Outlet
        ),
        _ => false,
    }
}

/// The value of an attribute that can be set.
fn read_set_value<'a>(
    alloc: Global,
    tables: &TableNames,
    pids: u32,
    attribute: Attr,
    value: &ValueText<'a>,
) -> Result<Result<What, Fault<'a>>, NoMemory>
    ensures { IfOk result (λ found. checked_now found
        ≡ value_set tables.now pids attribute (value_now value.now)) }
{
    match attribute {
        Attr::Status => Ok(read_status(value)),
        _ => read_setting(alloc, tables, pids, value),
    }
}

/// The value of a status: a status word, and no curve, series or PID controller.
fn read_status<'a>(value: &ValueText<'a>) -> Result<What, Fault<'a>>
    ensures { checked_now result ≡ status_read (value_now value.now) }
{
    let token = match value {
        ValueText::Plain(item) => return read_constant(ValueKind::Status, item),
        ValueText::Curve(table) => table.word,
        ValueText::Series(table) => table.word,
        ValueText::Pid(pid) => pid.word,
    };
    Err(Fault {
        cause: Cause::WrongValue,
        token,
    })
}

/// A constant of a kind.
fn read_constant<'a>(kind: ValueKind, item: &'a [u8]) -> Result<What, Fault<'a>>
    ensures { checked_now result ≡ constant_read kind item.now }
{
    match read_value(kind, item) {
        Ok(number) => Ok(What::Constant(number)),
        Err(fault) => Err(fault),
    }
}

/// The value of a setting.
fn read_setting<'a>(
    alloc: Global,
    tables: &TableNames,
    pids: u32,
    value: &ValueText<'a>,
) -> Result<Result<What, Fault<'a>>, NoMemory>
    ensures { IfOk result (λ found. checked_now found
        ≡ setting_read tables.now pids (value_now value.now)) }
{
    match value {
        ValueText::Plain(item) => Ok(read_constant(ValueKind::Setting, item)),
        ValueText::Curve(table) => match read_curve(alloc, tables, table.name)? {
            Ok(number) => Ok(Ok(What::Curve(number))),
            Err(fault) => Ok(Err(fault)),
        },
        ValueText::Series(table) => match read_series(alloc, tables, table.name)? {
            Ok(number) => Ok(Ok(What::Series(number))),
            Err(fault) => Ok(Err(fault)),
        },
        ValueText::Pid(pid) => match read_pid(pid) {
            Ok(set) => Ok(Ok(What::Pid(set, pids))),
            Err(fault) => Ok(Err(fault)),
        },
    }
}

/// The curve of a name.
fn read_curve<'a>(
    alloc: Global,
    tables: &TableNames,
    name: &'a [u8],
) -> Result<Result<CurveNo, Fault<'a>>, NoMemory>
    ensures { IfOk result (λ found. checked_now found ≡ curve_read tables.now name.now) }
{
    match tables.curve(alloc, name) {
        Ok(number) => Ok(Ok(number)),
        Err(TableFault::NoMemory) => Err(NoMemory),
        Err(fault) => Ok(Err(Fault {
            cause: table_cause(fault),
            token: name,
        })),
    }
}

/// The series of a name, which is no file series.
fn read_series<'a>(
    alloc: Global,
    tables: &TableNames,
    name: &'a [u8],
) -> Result<Result<SeriesNo, Fault<'a>>, NoMemory>
    ensures { IfOk result (λ found. checked_now found ≡ series_read tables.now name.now) }
{
    match tables.series(alloc, name) {
        Ok(number) => Ok(Ok(number)),
        Err(TableFault::NoMemory) => Err(NoMemory),
        Err(fault) => Ok(Err(Fault {
            cause: table_cause(fault),
            token: name,
        })),
    }
}

/// Why a name that gives no table is refused.
fn table_cause(fault: TableFault) -> Cause
    ensures { result ≡ cause_of fault }
{
    match fault {
        TableFault::FileSeries => Cause::FileSeries,
        _ => Cause::UnknownTable,
    }
}

/// The numbers of a PID controller: what is no number is reported by the word, and a number that is
/// too large by itself.
#[tactic(auto, unfolding(crate::specs::Actions::pid_read))]
fn read_pid<'a>(pid: &PidText<'a>) -> Result<PidSet, Fault<'a>>
    ensures { checked_now result ≡ pid_read (pid_now pid.now) }
{
    let gain = read_pid_part(pid.word, pid.gain);
    let integral = read_pid_part(pid.word, pid.integral);
    let derivative = read_pid_part(pid.word, pid.derivative);
    match both(gain, both(integral, derivative)) {
        Ok((gain, (integral, derivative))) => Ok(PidSet {
            gain,
            integral,
            derivative,
        }),
        Err(fault) => Err(fault),
    }
}

/// A number of a PID controller.
#[tactic(auto, unfolding(crate::specs::Actions::pid_part))]
fn read_pid_part<'a>(word: &'a [u8], item: &'a [u8]) -> Result<Frac, Fault<'a>>
    ensures { checked_now result ≡ pid_part word.now item.now }
{
    match read_number(item) {
        Ok(number) => Ok(number),
        Err(NumberFault::BadNumber) => Err(Fault {
            cause: Cause::WrongValue,
            token: word,
        }),
        Err(NumberFault::TooLarge) => Err(Fault {
            cause: Cause::NumberTooLarge,
            token: item,
        }),
    }
}
