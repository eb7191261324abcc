//! The kinds of row events: the event type and the parts of each.
ghost use Rattle.std.specs.Prelude.{◌≡◌, refl, true, false};
ghost use Rattle.binlog_consts.specs.declared.version.BinlogVersion.{BinlogVersion};
ghost use Rattle.binlog_consts.specs.declared.event_type.EventType.{EventType};
ghost use Rattle.binlog_consts.specs.declared.event_type.EventType.TheVariants as types;
ghost use Rattle.binlog_event_format.specs.FormatDescription.{default_description};
ghost use Rattle.binlog_event_format.specs.PostHeaders.{post_header};
ghost use Rattle.binlog_rows.specs.Forms.{default_length};
ghost use Rattle.binlog_rows.specs.declared.rows_form.RowsForm.{RowsForm};

use crate::rows_form::RowsForm;
use binlog_consts::EventType;

/// A kind of row events: their event type, and the parts that events of this type have.
pub trait RowsKind {
    /// The event type.
    const EVENT_TYPE: EventType;
    /// The parts of its events.
    const FORM: RowsForm;

    ghost EVENT_TYPE: { EventType };

    ghost FORM: { RowsForm };

    ghost by_default: { (version : BinlogVersion) → post_header (default_description version) EVENT_TYPE ≡ default_length FORM };
}

/// The kinds whose events have a before-image: updates and deletes.
pub trait HasBeforeImage: RowsKind {
    ghost has_before: { Self.FORM.has_before ≡ true };
}

/// The kinds whose events have an after-image: inserts and updates.
pub trait HasAfterImage: RowsKind {
    ghost has_after: { Self.FORM.has_after ≡ true };
}

/// Inserted rows: WRITE_ROWS, type 30.
#[derive(Drop)]
pub struct WriteRows;

impl RowsKind for WriteRows {
    const EVENT_TYPE: EventType = EventType::WRITE_ROWS_EVENT;

    const FORM: RowsForm = RowsForm {
        has_extra: true,
        has_before: false,
        has_after: true,
    };

    ghost EVENT_TYPE = { types.WRITE_ROWS_EVENT };

    ghost FORM = { record { has_extra = true; has_before = false; has_after = true } };

    ghost by_default = { λ _. refl };
}

impl HasAfterImage for WriteRows {
    ghost has_after = { refl };
}

/// Updated rows: UPDATE_ROWS, type 31.
#[derive(Drop)]
pub struct UpdateRows;

impl RowsKind for UpdateRows {
    const EVENT_TYPE: EventType = EventType::UPDATE_ROWS_EVENT;

    const FORM: RowsForm = RowsForm {
        has_extra: true,
        has_before: true,
        has_after: true,
    };

    ghost EVENT_TYPE = { types.UPDATE_ROWS_EVENT };

    ghost FORM = { record { has_extra = true; has_before = true; has_after = true } };

    ghost by_default = { λ _. refl };
}

impl HasBeforeImage for UpdateRows {
    ghost has_before = { refl };
}

impl HasAfterImage for UpdateRows {
    ghost has_after = { refl };
}

/// Deleted rows: DELETE_ROWS, type 32.
#[derive(Drop)]
pub struct DeleteRows;

impl RowsKind for DeleteRows {
    const EVENT_TYPE: EventType = EventType::DELETE_ROWS_EVENT;

    const FORM: RowsForm = RowsForm {
        has_extra: true,
        has_before: true,
        has_after: false,
    };

    ghost EVENT_TYPE = { types.DELETE_ROWS_EVENT };

    ghost FORM = { record { has_extra = true; has_before = true; has_after = false } };

    ghost by_default = { λ _. refl };
}

impl HasBeforeImage for DeleteRows {
    ghost has_before = { refl };
}

/// Updated rows: PARTIAL_UPDATE_ROWS, type 39. Some JSON columns may be logged as partial updates.
#[derive(Drop)]
pub struct PartialUpdateRows;

impl RowsKind for PartialUpdateRows {
    const EVENT_TYPE: EventType = EventType::PARTIAL_UPDATE_ROWS_EVENT;

    const FORM: RowsForm = RowsForm {
        has_extra: true,
        has_before: true,
        has_after: true,
    };

    ghost EVENT_TYPE = { types.PARTIAL_UPDATE_ROWS_EVENT };

    ghost FORM = { record { has_extra = true; has_before = true; has_after = true } };

    ghost by_default = { λ _. refl };
}

impl HasBeforeImage for PartialUpdateRows {
    ghost has_before = { refl };
}

impl HasAfterImage for PartialUpdateRows {
    ghost has_after = { refl };
}

/// Inserted rows: WRITE_ROWS V1, type 23.
#[derive(Drop)]
pub struct WriteRowsV1;

impl RowsKind for WriteRowsV1 {
    const EVENT_TYPE: EventType = EventType::WRITE_ROWS_EVENT_V1;

    const FORM: RowsForm = RowsForm {
        has_extra: false,
        has_before: false,
        has_after: true,
    };

    ghost EVENT_TYPE = { types.WRITE_ROWS_EVENT_V1 };

    ghost FORM = { record { has_extra = false; has_before = false; has_after = true } };

    ghost by_default = { λ _. refl };
}

impl HasAfterImage for WriteRowsV1 {
    ghost has_after = { refl };
}

/// Updated rows: UPDATE_ROWS V1, type 24.
#[derive(Drop)]
pub struct UpdateRowsV1;

impl RowsKind for UpdateRowsV1 {
    const EVENT_TYPE: EventType = EventType::UPDATE_ROWS_EVENT_V1;

    const FORM: RowsForm = RowsForm {
        has_extra: false,
        has_before: true,
        has_after: true,
    };

    ghost EVENT_TYPE = { types.UPDATE_ROWS_EVENT_V1 };

    ghost FORM = { record { has_extra = false; has_before = true; has_after = true } };

    ghost by_default = { λ _. refl };
}

impl HasBeforeImage for UpdateRowsV1 {
    ghost has_before = { refl };
}

impl HasAfterImage for UpdateRowsV1 {
    ghost has_after = { refl };
}

/// Deleted rows: DELETE_ROWS V1, type 25.
#[derive(Drop)]
pub struct DeleteRowsV1;

impl RowsKind for DeleteRowsV1 {
    const EVENT_TYPE: EventType = EventType::DELETE_ROWS_EVENT_V1;

    const FORM: RowsForm = RowsForm {
        has_extra: false,
        has_before: true,
        has_after: false,
    };

    ghost EVENT_TYPE = { types.DELETE_ROWS_EVENT_V1 };

    ghost FORM = { record { has_extra = false; has_before = true; has_after = false } };

    ghost by_default = { λ _. refl };
}

impl HasBeforeImage for DeleteRowsV1 {
    ghost has_before = { refl };
}
