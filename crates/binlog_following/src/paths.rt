//! Folders and names in paths.

/// The path up to its last slash, without that; None if it has none.
pub(crate) fn folder_of(path: &str) -> Option<&str> {
    match path.rsplit_once('/') {
        Some((folder, _)) => Some(folder),
        None => None,
    }
}

/// The path behind its last slash.
pub(crate) fn name_of(path: &str) -> &str {
    match path.rsplit_once('/') {
        Some((_, name)) => name,
        None => path,
    }
}
