//! Laws of the definitions. Each is a function without effect whose contract states it.
ghost use Rattle.std.specs.Prelude.{◌≡◌, ℕ, List, [], ◌∷◌, map, Some, None};
ghost use Rattle.binlog_consts.specs.StatusVarKeys.{status_var_keys};
ghost use Rattle.binlog_event_format.specs.WrittenForms.{FitWritten, AreReadNormal};
ghost use Rattle.binlog_statements.specs.Layouts.{layout_of};
ghost use Rattle.binlog_statements.specs.Ranges.{IsQueryInRange, IsLoadQueryInRange, IsUserVarInRange};
ghost use Rattle.binlog_statements.specs.StatusVariables.{Variable, AreVariablesOf, variables};
ghost use Rattle.binlog_statements.specs.UserVar.{type_of, charset_of, bytes_of, flags_of};
ghost use Rattle.binlog_statements.specs.declared.execute_load_query.ExecuteLoadQueryEvent.{ExecuteLoadQueryEvent};
ghost use Rattle.binlog_statements.specs.declared.layout.Layout.TheVariants.{Bytes, TextAnd, TwoTexts, Names};
ghost use Rattle.binlog_statements.specs.declared.query.QueryEvent.{QueryEvent};
ghost use Rattle.binlog_statements.specs.declared.user_var.UserVarEvent.{UserVarEvent};

use crate::execute_load_query::{ExecuteLoadQueryEvent, LoadHead};
use crate::layout::TOO_MANY_NAMES;
use crate::query::QueryEvent;
use crate::statement::{STATEMENT_HEAD_LEN, StatementHead, StatementTexts};
use crate::status_vars::StatusVars;
use crate::user_var::{UserVarEvent, UserVarValue};
use binlog_consts::EventType;
use binlog_event_format::BinlogEvent;
use binlog_wire::{MyDeserialize, MySerialize};

/// The encoded variables have exactly one longest prefix that is a list of whole variables; `variables` is that list.
pub fn one_list_of_variables()
    ensures some { (text : List ℕ) → AreVariablesOf text (variables text) }
    ensures one { (text : List ℕ) (vars : List Variable) → AreVariablesOf text vars → vars ≡ variables text }
{}

/// The event type of each body.
pub fn event_types() {
    prove!(matches!(QueryEvent::EVENT_TYPE, EventType::QUERY_EVENT));
    prove!(matches!(
        ExecuteLoadQueryEvent::EVENT_TYPE,
        EventType::EXECUTE_LOAD_QUERY_EVENT
    ));
    prove!(matches!(UserVarEvent::EVENT_TYPE, EventType::USER_VAR_EVENT));
}

/// The sizes of types with a fixed size; `None` for the others.
pub fn sizes() {
    prove!(matches!(StatementHead::SIZE, Some(13)));
    prove!(matches!(LoadHead::SIZE, Some(26)));
    prove!(matches!(QueryEvent::SIZE, None));
    prove!(matches!(ExecuteLoadQueryEvent::SIZE, None));
    prove!(matches!(UserVarEvent::SIZE, None));
    prove!(matches!(UserVarValue::SIZE, None));
    prove!(matches!(StatementTexts::SIZE, None));
    prove!(matches!(StatusVars::SIZE, None));
}

/// The ghost sizes equal the constants of [`sizes`].
pub fn ghost_sizes()
    ensures statement_head { ⟦<StatementHead as MyDeserialize<'static>>⟧.size ≡ Some 13 }
    ensures load_head { ⟦<LoadHead as MyDeserialize<'static>>⟧.size ≡ Some 26 }
    ensures query { ⟦<QueryEvent<'static> as MyDeserialize<'static>>⟧.size ≡ None }
    ensures load_query { ⟦<ExecuteLoadQueryEvent<'static> as MyDeserialize<'static>>⟧.size ≡ None }
    ensures user_var { ⟦<UserVarEvent<'static> as MyDeserialize<'static>>⟧.size ≡ None }
    ensures value { ⟦<UserVarValue<'static> as MyDeserialize<'static>>⟧.size ≡ None }
    ensures texts { ⟦<StatementTexts<'static> as MyDeserialize<'static>>⟧.size ≡ None }
    ensures status_vars { ⟦<StatusVars<'static> as MyDeserialize<'static>>⟧.size ≡ None }
{}

/// The constants of this crate, and what the getters return for a null.
pub fn constants()
    ensures null_type { type_of None ≡ 0 }
    ensures null_charset { charset_of None ≡ 63 }
    ensures null_bytes { bytes_of None ≡ [] }
    ensures null_flags { flags_of None ≡ 0 }
{
    prove!(STATEMENT_HEAD_LEN == 13);
    prove!(TOO_MANY_NAMES == 254);
}

/// The layouts of the values of the keys 0 to 20.
pub fn layouts()
    ensures { map layout_of status_var_keys
        ≡ Bytes 4 ∷ Bytes 8 ∷ TextAnd 1 ∷ Bytes 4 ∷ Bytes 6 ∷ TextAnd 0 ∷ TextAnd 0
        ∷ Bytes 2 ∷ Bytes 2 ∷ Bytes 8 ∷ Bytes 4 ∷ TwoTexts ∷ Names ∷ Bytes 3
        ∷ Bytes 0 ∷ Bytes 0 ∷ Bytes 1 ∷ Bytes 8 ∷ Bytes 2 ∷ Bytes 1 ∷ Bytes 1 ∷ [] }
{}

/// The raw type of each body is the number of its event type.
pub fn raw_types()
    ensures query { (event : QueryEvent) → ⟦<QueryEvent<'static> as BinlogEvent<'static>>⟧.raw_type event ≡ 2 }
    ensures load_query { (event : ExecuteLoadQueryEvent) → ⟦<ExecuteLoadQueryEvent<'static> as BinlogEvent<'static>>⟧.raw_type event ≡ 18 }
    ensures user_var { (event : UserVarEvent) → ⟦<UserVarEvent<'static> as BinlogEvent<'static>>⟧.raw_type event ≡ 14 }
{}

/// An event whose fields are in the ranges of their types fits its written form. So its written bytes read back as its
/// normal form.
pub fn events_fit()
    ensures query { FitWritten IsQueryInRange ⟦<QueryEvent<'static> as BinlogEvent<'static>>⟧.format ⟦<QueryEvent<'static> as BinlogEvent<'static>>⟧.raw_type }
    ensures load_query { FitWritten IsLoadQueryInRange ⟦<ExecuteLoadQueryEvent<'static> as BinlogEvent<'static>>⟧.format ⟦<ExecuteLoadQueryEvent<'static> as BinlogEvent<'static>>⟧.raw_type }
    ensures user_var { FitWritten IsUserVarInRange ⟦<UserVarEvent<'static> as BinlogEvent<'static>>⟧.format ⟦<UserVarEvent<'static> as BinlogEvent<'static>>⟧.raw_type }
{}

/// Writing refuses no event.
pub fn none_is_refused()
    ensures query { (event : QueryEvent) → ⟦<QueryEvent<'static> as MySerialize>⟧.refusal event ≡ None }
    ensures load_query { (event : ExecuteLoadQueryEvent) → ⟦<ExecuteLoadQueryEvent<'static> as MySerialize>⟧.refusal event ≡ None }
    ensures user_var { (event : UserVarEvent) → ⟦<UserVarEvent<'static> as MySerialize>⟧.refusal event ≡ None }
{}

/// An event that was read under any description is its own normal form in its written form.
pub fn read_events_are_normal()
    ensures query { AreReadNormal ⟦<QueryEvent<'static> as MyDeserialize<'static>>⟧.reads ⟦<QueryEvent<'static> as BinlogEvent<'static>>⟧.format ⟦<QueryEvent<'static> as BinlogEvent<'static>>⟧.raw_type }
    ensures load_query { AreReadNormal ⟦<ExecuteLoadQueryEvent<'static> as MyDeserialize<'static>>⟧.reads ⟦<ExecuteLoadQueryEvent<'static> as BinlogEvent<'static>>⟧.format ⟦<ExecuteLoadQueryEvent<'static> as BinlogEvent<'static>>⟧.raw_type }
    ensures user_var { AreReadNormal ⟦<UserVarEvent<'static> as MyDeserialize<'static>>⟧.reads ⟦<UserVarEvent<'static> as BinlogEvent<'static>>⟧.format ⟦<UserVarEvent<'static> as BinlogEvent<'static>>⟧.raw_type }
{}
