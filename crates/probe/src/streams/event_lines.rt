//! The line of an event.
use binlog_file::{Error, EventRef, IntoOwned, MySerialize, TryClone};
use binlog_mariadb::{MariaEventType, is_maria_log, read_maria_data};
use json_line::Line;
use std::alloc::Global;

/// Writes the object of an event.
///
/// # Errors
///
/// [`Error::Memory`].
pub(crate) fn write_event(
    alloc: Global,
    event: EventRef<'_>,
    line: &mut Line,
) -> Result<(), Error> {
    line.begin_object()?;
    line.number_member("type", u64::from(event.header().event_type_raw()))?;
    if let Err(error) = write_body(alloc, event, line) {
        write_refusal(alloc, error, line)?;
    }
    line.end_object()?;
    Ok(())
}

/// Writes the object of an error in the place of an event.
///
/// # Errors
///
/// The error itself, if memory or the reader failed, and [`Error::Memory`].
pub(crate) fn write_error(alloc: Global, error: Error, line: &mut Line) -> Result<(), Error> {
    line.begin_object()?;
    write_refusal(alloc, error, line)?;
    line.end_object()?;
    Ok(())
}

// Writes what is written for the body. MariaDB's own types are read in its logs alone. Its error is why the data isn't such a body.
fn write_body(alloc: Global, event: EventRef<'_>, line: &mut Line) -> Result<(), Error> {
    let raw_type = event.header().event_type_raw();
    if is_maria_log(&event.fde()) && MariaEventType::try_from(raw_type).is_ok() {
        let read = read_maria_data(alloc, event.fde(), raw_type, event.data());
        write_data(alloc, read, line)
    } else {
        write_data(alloc, event.read_data(alloc), line)
    }
}

// Writes the bytes that are written for event data and, where others are written for a copy that owns its bytes, those.
fn write_data<T>(
    alloc: Global,
    read: Result<Option<T>, Error>,
    line: &mut Line,
) -> Result<(), Error>
where
    T: TryClone + IntoOwned + MySerialize + Drop,
    T::Owned: MySerialize + Drop,
{
    let Some(data) = read? else {
        return Ok(());
    };
    let bytes = written(alloc, &data)?;
    let copied = written_of_copy(alloc, data)?;
    line.bytes_member("written", &bytes)?;
    if copied != bytes {
        line.bytes_member("copied", &copied)?;
    }
    Ok(())
}

// The bytes that are written for a copy that owns its bytes.
fn written_of_copy<T>(alloc: Global, value: T) -> Result<Vec<u8>, Error>
where
    T: TryClone + IntoOwned + Drop,
    T::Owned: MySerialize + Drop,
{
    let copy = value.clone(alloc)?.into_owned(alloc)?;
    written(alloc, &copy)
}

// The bytes that are written for a value.
fn written<T: MySerialize>(alloc: Global, value: &T) -> Result<Vec<u8>, Error> {
    let mut bytes = Vec::new(alloc);
    value.serialize(alloc, &mut bytes)?;
    Ok(bytes)
}

// Writes the name of an error with its values, unless memory or the reader failed.
fn write_refusal(alloc: Global, error: Error, line: &mut Line) -> Result<(), Error> {
    if error.is_environment_error() {
        return Err(error);
    }
    let name = format!(in alloc; "{error:?}")?;
    line.key("refused")?;
    line.string(name.as_str())?;
    Ok(())
}
