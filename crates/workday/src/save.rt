use crate::problem::Problem;
use std::fs::File;
use std::io::Write;
use std::{fs, io};

// A name and bytes go through the three functions below, as the standard library takes a file.

// Writes the bytes to a file and has them on disk.
fn put(rt: &HostRuntime, name: &str, bytes: &[u8]) -> io::Result<()> {
    let mut file = File::create(rt, name)?;
    file.write_all(bytes)?;
    file.sync_all()
}

// Writes the bytes to a new file, which then takes the old one's place.
fn replace(rt: &HostRuntime, fresh: &str, name: &str, bytes: &[u8]) -> io::Result<()> {
    put(rt, fresh, bytes)?;
    fs::rename(rt, fresh, name)
}

// Writes a book back, so that a cut at any moment leaves the old book or the new one.
pub(crate) fn save(rt: &HostRuntime, name: &String, bytes: &[u8]) -> Result<(), Problem> {
    let fresh = format!(in rt.alloc(); "{name}.new")?;
    replace(rt, fresh.as_str(), name.as_str(), bytes).try_map_err(|error| -> Result<
        Problem,
        Problem,
    > { Ok(Problem::NotWritten(name.clone()?, error)) })
}
