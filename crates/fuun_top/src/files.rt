// Files, read whole and judged.
ghost use Rattle.std.specs.Prelude.{◌≡◌, ◌≤◌, ◌∷◌, [], length, IfOk, IsTrue};
ghost use Rattle.fuun_top.specs.Answer.{AreAllowed};
ghost use Rattle.fuun_top.specs.Reading.{bytes_in, dna_in, judged_dna, judged_rna, judged_script, most_bytes, prefix_files, prefix_in, rna_in, script_in};
ghost use Rattle.fuun_top.specs.ReadingRoom.{Judges, Reads};

use crate::{InFile, Status};
use fuun_base::{BaseList, CommandList, DnaError, List, RnaError, read_dna, read_rna};
use fuun_io::{Folder, ReadError, read_all};
use fuun_words::Name;
use rewinder::{OrderList, ScriptError, read_script};
use std::alloc::Global;

/// The most bytes that a file may have.
const MOST_BYTES: u64 = 1 << 26;

/// The bytes of a file, at most 2^26 of them. Each read of the crate goes through here.
pub(crate) fn file_bytes<F: Folder>(
    alloc: Global,
    folder: &mut F,
    name: &str,
    file: InFile,
) -> Result<List<u8>, Status>
    requires { IsTrue (F.allows folder.old name.now) }
    ensures most { IfOk result (λ bytes. length bytes ≤ most_bytes) }
    ensures reads { Reads (F.contents folder.old) ((file, name.now) ∷ []) (bytes_in (F.contents folder.old) file name.now)
        result (F.given folder.old) (F.given folder.new) (F.faults folder.old) (F.faults folder.new) }
    ensures same_contents { F.contents folder.new ≡ F.contents folder.old }
    ensures same_names { F.allows folder.new ≡ F.allows folder.old }
{
    match read_all(alloc, folder, name, MOST_BYTES) {
        Ok(bytes) => Ok(List::from_vec(bytes)),
        Err(ReadError::ReadFault) => Err(Status::ReadFault),
        Err(ReadError::InputTooLong) => Err(Status::InputTooLong { file }),
        Err(ReadError::NoMemory) => Err(Status::NoMemory),
    }
}

/// The bases that the bytes of a DNA file stand for.
fn judge_dna(alloc: Global, file: InFile, bytes: &[u8]) -> Result<BaseList, Status>
    ensures judges { Judges (judged_dna file bytes.now) result }
    ensures most { IfOk result (λ dna. length dna ≤ length bytes.now) }
{
    match read_dna(alloc, bytes) {
        Ok(dna) => Ok(dna),
        Err(DnaError::BadBase { place }) => Err(Status::BadBase { file, place }),
        Err(DnaError::NoMemory) => Err(Status::NoMemory),
    }
}

/// The commands that the bytes of an RNA file stand for.
fn judge_rna(alloc: Global, bytes: &[u8]) -> Result<CommandList, Status>
    ensures { Judges (judged_rna bytes.now) result }
{
    match read_rna(alloc, bytes) {
        Ok(commands) => Ok(commands),
        Err(RnaError::BadRna { line }) => Err(Status::BadRna { line }),
        Err(RnaError::NoMemory) => Err(Status::NoMemory),
    }
}

/// The bases of a DNA file.
pub(crate) fn dna_file<F: Folder>(
    alloc: Global,
    folder: &mut F,
    name: &str,
    file: InFile,
) -> Result<BaseList, Status>
    requires { IsTrue (F.allows folder.old name.now) }
    ensures most { IfOk result (λ dna. length dna ≤ most_bytes) }
    ensures reads { Reads (F.contents folder.old) ((file, name.now) ∷ []) (dna_in (F.contents folder.old) file name.now)
        result (F.given folder.old) (F.given folder.new) (F.faults folder.old) (F.faults folder.new) }
    ensures same_contents { F.contents folder.new ≡ F.contents folder.old }
    ensures same_names { F.allows folder.new ≡ F.allows folder.old }
{
    match file_bytes(alloc, folder, name, file) {
        Ok(bytes) => judge_dna(alloc, file, bytes.as_slice()),
        Err(status) => Err(status),
    }
}

/// The bases of the prefix file: none without one.
pub(crate) fn prefix_file<F: Folder>(
    alloc: Global,
    folder: &mut F,
    prefix: &Option<Name>,
) -> Result<BaseList, Status>
    requires { AreAllowed (F.allows folder.old) (prefix_files prefix.now) }
    ensures reads { Reads (F.contents folder.old) (prefix_files prefix.now)
        (prefix_in (F.contents folder.old) prefix.now)
        result (F.given folder.old) (F.given folder.new) (F.faults folder.old) (F.faults folder.new) }
    ensures same_contents { F.contents folder.new ≡ F.contents folder.old }
    ensures same_names { F.allows folder.new ≡ F.allows folder.old }
{
    match prefix {
        Some(name) => dna_file(alloc, folder, name.as_str(), InFile::Prefix),
        None => Ok(BaseList::new(alloc)),
    }
}

/// The commands of an RNA file.
pub(crate) fn rna_file<F: Folder>(
    alloc: Global,
    folder: &mut F,
    name: &str,
) -> Result<CommandList, Status>
    requires { IsTrue (F.allows folder.old name.now) }
    ensures reads { Reads (F.contents folder.old) ((InFile.Rna, name.now) ∷ []) (rna_in (F.contents folder.old) name.now)
        result (F.given folder.old) (F.given folder.new) (F.faults folder.old) (F.faults folder.new) }
    ensures same_contents { F.contents folder.new ≡ F.contents folder.old }
    ensures same_names { F.allows folder.new ≡ F.allows folder.old }
{
    match file_bytes(alloc, folder, name, InFile::Rna) {
        Ok(bytes) => judge_rna(alloc, bytes.as_slice()),
        Err(status) => Err(status),
    }
}

/// The orders of a script.
fn judge_script(alloc: Global, bytes: &[u8]) -> Result<OrderList, Status>
    requires { length bytes.now ≤ most_bytes }
    ensures { Judges (judged_script bytes.now) result }
{
    match read_script(alloc, bytes) {
        Ok(orders) => Ok(orders),
        Err(ScriptError::BadScript { line }) => Err(Status::BadScript { line }),
        Err(ScriptError::NoMemory) => Err(Status::NoMemory),
    }
}

/// Reads a script.
pub(crate) fn script_file<F: Folder>(
    alloc: Global,
    folder: &mut F,
    name: &str,
) -> Result<OrderList, Status>
    requires { IsTrue (F.allows folder.old name.now) }
    ensures reads { Reads (F.contents folder.old) ((InFile.Script, name.now) ∷ []) (script_in (F.contents folder.old) name.now)
        result (F.given folder.old) (F.given folder.new) (F.faults folder.old) (F.faults folder.new) }
    ensures same_contents { F.contents folder.new ≡ F.contents folder.old }
    ensures same_names { F.allows folder.new ≡ F.allows folder.old }
{
    match file_bytes(alloc, folder, name, InFile::Script) {
        Ok(bytes) => judge_script(alloc, bytes.as_slice()),
        Err(status) => Err(status),
    }
}
