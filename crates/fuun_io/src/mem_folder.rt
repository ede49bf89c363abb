// Files in memory.
ghost use Rattle.std.specs.Prelude.{◌≡◌, ℕ, ◌+◌, ◌-◌, ◌<◌, ◌≤◌, Bool, true, List, [], ◌∷◌, ◌++◌, Option, IsTrue, is_err, length, min, OnOk, OnErr, IfOk, IfSome, find, bytes_eq};
ghost use Rattle.std.specs.Option.{option_copied};
ghost use Rattle.fuun_io.specs.Counts.{raised, HasCause};
ghost use Rattle.fuun_io.specs.Files.{Gives};
ghost use Rattle.fuun_io.specs.Memory.{told, read_fails};

use crate::{Failed, Folder, NoMemory};
use std::alloc::Global;
use std::marker::Model;

#[derive(Drop)]
struct File {
    name: String,
    contents: Vec<u8>,
}

impl Model for File {
    ghost use Rattle.std.specs.Prelude.{List, ℕ, string_bytes};

    ghost Value = { List ℕ × List ℕ };

    ghost view = { λ file. (string_bytes file.name, file.contents.items) };
}

/// Files in memory. A read gives as many bytes as there are and the buffer takes. It fails at the calls
/// that were told to fail, counted from 0, and at each unknown name.
#[derive(Drop)]
pub struct MemFolder {
    alloc: Global,
    files: Vec<File>,
    failing: Vec<u64>,
    calls: u64,
    faults: u64,
    given: u64,
}

impl Model for MemFolder {
    ghost use Rattle.fuun_io.specs.Memory.{Shelf};

    ghost Value = { Shelf };

    ghost view = { λ folder. record { files = folder.files.items; failing = folder.failing.items; calls = folder.calls; faults = folder.faults; given = folder.given } };
}

impl MemFolder {
    /// A folder with no files.
    pub fn new(alloc: Global) -> MemFolder
        ensures { result ≡ record { files = []; failing = []; calls = 0; faults = 0; given = 0 } }
    {
        MemFolder {
            alloc,
            files: Vec::new(alloc),
            failing: Vec::new(alloc),
            calls: 0,
            faults: 0,
            given: 0,
        }
    }

    /// Sets the contents of a name.
    pub fn add(&mut self, name: &str, contents: &[u8]) -> Result<(), NoMemory>
        ensures ok { OnOk result (self.new ≡ record self.old { files = (name.now, contents.now) ∷ self.old.files }) }
        ensures err { OnErr result (self.new ≡ self.old) }
    {
        let file = File {
            name: String::from_str(self.alloc, name)?,
            contents: Vec::from_slice(self.alloc, contents)?,
        };
        // The newest stands first, where it is found.
        self.files.insert(0, file)?;
        Ok(())
    }

    /// Makes the call of this number fail.
    pub fn fail_at(&mut self, call: u64) -> Result<(), NoMemory>
        ensures ok { OnOk result (self.new ≡ record self.old { failing = self.old.failing ++ call ∷ [] }) }
        ensures err { OnErr result (self.new ≡ self.old) }
    {
        self.failing.push(call)?;
        Ok(())
    }
}

impl Folder for MemFolder {
    ghost contents = { λ folder name. told folder.files name };

    ghost allows = { λ _ _. true };

    ghost faults = { λ folder. folder.faults };

    ghost given = { λ folder. folder.given };

    fn piece(&mut self, name: &str, at_byte: u64, buf: &mut [u8]) -> Result<usize, Failed>
        requires { 0 < length buf.old }

        ensures bound { IfOk result (λ count. count ≤ length buf.new) }
        ensures bytes { IfOk result (λ count. IfSome (told self.old.files name.now)
            (λ bytes. Gives bytes at_byte count buf.new)) }
        ensures fills { IfOk result (λ count. IfSome (told self.old.files name.now)
            (λ bytes. count ≡ min (length buf.old) (length bytes - at_byte))) }

        ensures given { IfOk result (λ count. self.new ≡ record self.old {
          calls = raised self.old.calls 1;
          given = raised self.old.given count;
        }) }
        ensures none_given { OnErr result (self.new ≡ record self.old {
          calls = raised self.old.calls 1;
          faults = raised self.old.faults 1;
        }) }
        ensures fails { is_err result ≡ read_fails self.old name.now }
    {
        let is_listed = self.failing.contains(&self.calls);
        self.calls = self.calls.saturating_add(1);
        if !is_listed {
            if let Some(file) = find_file(&self.files, name) {
                let count = copy_from(&file.contents, at_byte, buf);
                self.given = self.given.saturating_add(count as u64);
                return Ok(count);
            }
        }
        self.faults = self.faults.saturating_add(1);
        Err(Failed)
    }
}

// The newest file of a name.
fn find_file<'a>(files: &'a [File], name: &str) -> Option<&'a File>
    ensures { option_copied result ≡ find (λ file. bytes_eq file.0 name.now) files.now }
{
    files.iter().find(|file| file.name.as_str() == name)
}

// Writes as many bytes from a place on as there are and the buffer takes.
fn copy_from(contents: &[u8], at_byte: u64, buf: &mut [u8]) -> usize
    requires { 0 < length buf.old }
    ensures count { result ≡ min (length buf.old) (length contents.now - at_byte) }
    ensures gives { Gives contents.now at_byte result buf.new }
{
    let start = at_byte.min(contents.len() as u64) as usize;
    let count = buf.len().min(contents.len() - start);
    buf[..count].copy_from_slice(&contents[start..start + count]);
    count
}
