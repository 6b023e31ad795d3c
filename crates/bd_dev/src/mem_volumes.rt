//! The volumes and files of media in memory.

ghost use Rattle.std.specs.Prelude.{◌≡◌, ◌≤◌, ◌∷◌, [], length, IfOk, OnOk, OnErr, position};
ghost use Rattle.std.specs.Option.{option_copied};
ghost use Rattle.std.specs.Str.{bytes_eq};
ghost use Rattle.bd_dev.specs.Volumes.{IsPiece, PutsFile, bytes_of, file_in, file_of, volume_names, volume_of};

use crate::bytes::{Bytes, Memory, Names};
use std::alloc::Global;
use std::marker::Model;

/// A named file.
#[derive(Drop)]
pub(crate) struct MemFile {
    name: Bytes,
    bytes: Bytes,
}

impl Model for MemFile {
    ghost use Rattle.bd_dev.specs.Volumes.{File};

    ghost Value = { File };

    ghost view = { λ f. record { name = f.name; bytes = f.bytes } };
}

impl MemFile {
    /// A file of these bytes, or `Memory`.
    pub(crate) fn new(alloc: Global, name: &[u8], bytes: &[u8]) -> Result<MemFile, Memory>
        ensures { IfOk result (λ f. f ≡ record { name = name.now; bytes = bytes.now }) }
    {
        Ok(MemFile {
            name: Bytes::from_slice(alloc, name)?,
            bytes: Bytes::from_slice(alloc, bytes)?,
        })
    }
}

/// A volume and its files.
#[derive(Drop)]
pub(crate) struct MemVolume {
    name: Bytes,
    files: Vec<MemFile>,
}

impl Model for MemVolume {
    ghost use Rattle.bd_dev.specs.Volumes.{Volume};

    ghost Value = { Volume };

    ghost view = { λ v. record { name = v.name; files = v.files.items } };
}

impl MemVolume {
    /// A volume of one file, or `Memory`.
    pub(crate) fn new(alloc: Global, name: &[u8], file: MemFile) -> Result<MemVolume, Memory>
        ensures { IfOk result (λ v. v ≡ record { name = name.now; files = file ∷ [] }) }
    {
        let name = Bytes::from_slice(alloc, name)?;
        let mut files = Vec::new(alloc);
        files.push(file)?;
        Ok(MemVolume { name, files })
    }

    /// Gives the volume this file, in place of the file of that name, or answers `Memory`.
    pub(crate) fn put(&mut self, file: MemFile) -> Result<(), Memory>
        ensures named { self.new.name ≡ self.old.name }
        ensures put { OnOk result (PutsFile self.old.files self.new.files file.name file.bytes) }
        ensures unchanged { OnErr result (self.new ≡ self.old) }
    {
        match place_of_file(&self.files, file.name.as_slice()) {
            Some(place) => self.files[place] = file,
            None => self.files.push(file)?,
        }
        Ok(())
    }
}

fn place_of_file(files: &[MemFile], name: &[u8]) -> Option<usize>
    ensures { result ≡ position (λ f. bytes_eq f.name name.now) files.now }
{
    files.iter().position(|file| file.name.as_slice() == name)
}

/// The place of the volume of this name.
pub(crate) fn place_of_volume(volumes: &[MemVolume], name: &[u8]) -> Option<usize>
    ensures { result ≡ position (λ v. bytes_eq v.name name.now) volumes.now }
{
    volumes
        .iter()
        .position(|volume| volume.name.as_slice() == name)
}

fn file_among<'a>(files: &'a [MemFile], name: &[u8]) -> Option<&'a Bytes>
    ensures { option_copied result ≡ file_in files.now name.now }
{
    let file = files.iter().find(|file| file.name.as_slice() == name)?;
    Some(&file.bytes)
}

fn volume_named<'a>(volumes: &'a [MemVolume], name: &[u8]) -> Option<&'a MemVolume>
    ensures { option_copied result ≡ volume_of volumes.now name.now }
{
    volumes.iter().find(|volume| volume.name.as_slice() == name)
}

/// The bytes of the file of this name in the volume of this name.
pub(crate) fn file_named<'a>(
    volumes: &'a [MemVolume],
    volume: &[u8],
    name: &[u8],
) -> Option<&'a Bytes>
    ensures { option_copied result ≡ file_of volumes.now volume.now name.now }
{
    file_among(&volume_named(volumes, volume)?.files, name)
}

/// The same, where an absent file has no bytes.
pub(crate) fn bytes_named<'a>(volumes: &'a [MemVolume], volume: &[u8], name: &[u8]) -> &'a [u8]
    ensures { result.now ≡ bytes_of volumes.now volume.now name.now }
{
    match file_named(volumes, volume, name) {
        Some(bytes) => bytes.as_slice(),
        None => &[],
    }
}

/// The names of the volumes, in their order, or `Memory`.
pub(crate) fn names_of(alloc: Global, volumes: &[MemVolume]) -> Result<Names, Memory>
    ensures { IfOk result (λ names. names ≡ volume_names volumes.now) }
{
    let mut names = Names::new(alloc);
    for volume in volumes {
        names.push(Bytes::from_slice(alloc, volume.name.as_slice())?)?;
    }
    Ok(names)
}

/// Copies to the front of `out` what the file has from `at` on, and gives how many bytes.
pub(crate) fn copy_piece(file: &[u8], at: u64, out: &mut [u8]) -> usize
    ensures piece { IsPiece file.now at result out.new }
    ensures fits { result ≤ length out.new }
{
    if at as usize >= file.len() {
        return 0;
    }
    let left = &file[at as usize..];
    let count = left.len().min(out.len());
    out[..count].copy_from_slice(&left[..count]);
    count
}
