//! A shelf in memory, which fails where it is told to.
ghost use Rattle.std.specs.Prelude.{◌≡◌, ◌⊎◌, ℕ, true, false, not, ◌||◌, nat_lt, if◌then◌else◌, IsErrOf, is_ok, ◌+◌};
ghost use Rattle.std.specs.Prelude.{◌-◌, ◌<◌, ◌≤◌, nat_le, [], take, length, option_map, Some, None, IfOk, IfSome};
ghost use Rattle.std.specs.Prelude.{OnOk, OnErr, is_err, slice_get, option_copied, vec_len, vec_capacity};
ghost use Rattle.std.specs.List.{position};
ghost use Rattle.std.specs.Str.{bytes_eq};
ghost use Rattle.wb_ports.specs.Counts.{CountsFailure, Rose, is_failed};
ghost use Rattle.wb_ports.specs.InMemory.{is_next_listed, with_failure};
ghost use Rattle.wb_ports.specs.Files.{Loads, SameFiles, SameOthers, Empties, AppendsTo, AppendsPrefixTo};
ghost use Rattle.wb_ports.specs.Files.{KeepsLastFailure};
ghost use Rattle.wb_ports.specs.MemShelf.{ShelfState, PutsFile, FailsExactly, file_of, first_name, first_length};
ghost use Rattle.wb_ports.specs.MemShelf.{with_more, open_name_of, fails_to_load, fails_to_write, appended, after_call};
ghost use Rattle.wb_ports.specs.inner.MemShelfKept.{IsWritable, files_in, last_failure_in};

use crate::counting::{CallCounter, append_within};
use crate::{Failed, LOAD_LIMIT, PortErr, Shelf, ShelfCall};
use std::alloc::Global;
use std::marker::Model;
use wb_base::{OutOfMemory, Text};

// A file of a shelf in memory.
#[derive(Drop)]
struct MemFile {
    name: Text,
    bytes: Vec<u8>,
}

// Which call failed last, if one did, and the name of its file.
#[derive(Drop)]
struct LastFailure {
    call: Option<ShelfCall>,
    name: Vec<u8>,
}

/// Files in memory. Each written file has room for so many bytes, all of it reserved by `create`, so that a write
/// takes no memory. To contracts it is a `ShelfState`. This project's own.
#[derive(Drop)]
pub struct MemShelf {
    // The open file stands first.
    files: Vec<MemFile>,
    is_open: bool,
    last_failure: LastFailure,
    room: usize,
    calls: CallCounter,
}

impl Model for MemShelf {
    ghost use Rattle.std.specs.Prelude.{◌≡◌, true, vec_capacity};
    ghost use Rattle.wb_ports.specs.MemShelf.{ShelfState};
    ghost use Rattle.wb_ports.specs.inner.MemShelfKept.{IsWritable, files_in, last_failure_in};

    ghost Value = { ShelfState };

    ghost view = { λ shelf. record {
      files = files_in shelf.files.items;
      is_open = shelf.is_open;
      last_failure = last_failure_in shelf.last_failure;
      room = shelf.room;
      calls = shelf.calls;
    } };

    ghost invariant = { λ shelf. shelf.is_open ≡ true →
        IsWritable shelf.room (vec_capacity shelf.last_failure.name) shelf.files.items };
}

// The place of the file of this name, if there is one.
fn place_of(files: &[MemFile], name: &[u8]) -> Option<usize>
    ensures { result ≡ position (λ file. bytes_eq file.name name.now) files.now }
{
    files.iter().position(|file| file.name.bytes() == name)
}

// The bytes of the file of this name, if there is one.
fn bytes_of<'a>(files: &'a [MemFile], name: &[u8]) -> Option<&'a [u8]>
    ensures { option_copied result ≡ file_of (files_in files.now) name.now }
{
    let place = place_of(files, name)?;
    Some(&files[place].bytes)
}

// Takes the file of this name away, if there is one.
fn discard(files: &mut Vec<MemFile>, name: &[u8])
    ensures others { SameOthers name.now (file_of (files_in files.old.items)) (file_of (files_in files.new.items)) }
    ensures fewer { vec_len files.new ≤ vec_len files.old }
    ensures capacity { vec_capacity files.new ≡ vec_capacity files.old }
{
    if let Some(place) = place_of(files, name) {
        files.remove(place);
    }
}

// Puts the file first, in place of the one of its name. There is room for one more.
fn put_first(files: &mut Vec<MemFile>, file: MemFile)
    requires { vec_len files.old < vec_capacity files.old }

    ensures first { slice_get files.new.items 0 ≡ Some file }
    ensures name { first_name (files_in files.new.items) ≡ file.name }
    ensures puts { PutsFile file.name file.bytes.items
        (file_of (files_in files.old.items)) (file_of (files_in files.new.items)) }
{
    discard(files, file.name.bytes());
    let put = files.insert(0, file);
    prove!(put.is_ok());
}

// Appends what fits in the room of the first file, and tells whether that was all.
fn append_to_first(files: &mut Vec<MemFile>, room: usize, piece: &[u8]) -> bool
    requires { (name_capacity : ℕ) × IsWritable room name_capacity files.old.items }

    ensures bytes { files_in files.new.items
        ≡ with_more (take (room - first_length (files_in files.old.items)) piece.now) (files_in files.old.items) }
    ensures all { result ≡ nat_le (first_length (files_in files.old.items) + length piece.now) room }
    ensures still_writable { (name_capacity : ℕ) →
        IsWritable room name_capacity files.old.items → IsWritable room name_capacity files.new.items }
{
    let file = &mut files[0];
    append_within(&mut file.bytes, room, piece)
}

// Appends nothing in a call that is listed, and else what fits. It tells whether the call does not fail.
fn append_unless(listed: bool, files: &mut Vec<MemFile>, room: usize, piece: &[u8]) -> bool
    requires { (name_capacity : ℕ) × IsWritable room name_capacity files.old.items }

    ensures bytes { files_in files.new.items ≡ with_more
        (if listed then [] else take (room - first_length (files_in files.old.items)) piece.now)
        (files_in files.old.items) }
    ensures all { not result ≡ (listed || nat_lt room (first_length (files_in files.old.items) + length piece.now)) }
    ensures still_writable { (name_capacity : ℕ) →
        IsWritable room name_capacity files.old.items → IsWritable room name_capacity files.new.items }
{
    !listed && append_to_first(files, room, piece)
}

// Reserves room for the name of a failed call.
fn reserve_name(kept: &mut Vec<u8>, name: &[u8]) -> Result<(), OutOfMemory>
    ensures items { kept.new.items ≡ kept.old.items }
    ensures capacity { vec_capacity kept.old ≤ vec_capacity kept.new }
    ensures reserved { OnOk result (length name.now ≤ vec_capacity kept.new) }
{
    kept.reserve(name.len())?;
    Ok(())
}

// Counts a failed call and keeps it. The room for its name is reserved.
fn keep_failure(calls: &mut CallCounter, kept: &mut LastFailure, call: ShelfCall, name: &[u8])
    requires { length name.now ≤ vec_capacity kept.old.name }

    ensures counted { calls.new ≡ with_failure calls.old }
    ensures rose { Rose calls.old.faults calls.new.faults }
    ensures last { last_failure_in kept.new ≡ Some (record { call = call; name = name.now }) }
    ensures capacity { vec_capacity kept.old.name ≤ vec_capacity kept.new.name }
{
    calls.count_failure();
    kept.call = Some(call);
    kept.name.clear();
    let copied = kept.name.extend_from_slice(name);
    prove!(copied.is_ok());
}

// Reserves a place for one file more.
fn reserve_place(files: &mut Vec<MemFile>) -> Result<(), OutOfMemory>
    ensures items { files.new.items ≡ files.old.items }
    ensures reserved { OnOk result (vec_len files.new < vec_capacity files.new) }
{
    files.reserve(1)?;
    Ok(())
}

// The first bytes, at most so many.
fn prefix(bytes: &[u8], limit: usize) -> &[u8]
    ensures bytes { result.now ≡ take limit bytes.now }
    ensures within { length result.now ≤ limit }
{
    if bytes.len() <= limit {
        bytes
    } else {
        &bytes[..limit]
    }
}

// A copy of what is loaded of these bytes.
fn loaded_part(alloc: Global, bytes: &[u8]) -> Result<Text, OutOfMemory>
    ensures bytes { IfOk result (λ text. text ≡ take LOAD_LIMIT bytes.now) }
    ensures limit { IfOk result (λ text. length text ≤ LOAD_LIMIT) }
{
    let mut text = Text::new(alloc);
    text.push_all(prefix(bytes, LOAD_LIMIT))?;
    Ok(text)
}

// What is loaded of the file of this name, if there is one.
fn loaded(alloc: Global, files: &[MemFile], name: &[u8]) -> Result<Option<Text>, OutOfMemory>
    ensures bytes { IfOk result (λ text.
        text ≡ option_map (λ all. take LOAD_LIMIT all) (file_of (files_in files.now) name.now)) }
    ensures limit { IfOk result (λ text. IfSome text (λ t. length t ≤ LOAD_LIMIT)) }
{
    match bytes_of(files, name) {
        Some(bytes) => Ok(Some(loaded_part(alloc, bytes)?)),
        None => Ok(None),
    }
}

// A file of this name and these bytes.
fn full_file(alloc: Global, name: &[u8], bytes: &[u8]) -> Result<MemFile, OutOfMemory>
    ensures name { IfOk result (λ file. file.name ≡ name.now) }
    ensures bytes { IfOk result (λ file. file.bytes.items ≡ bytes.now) }
{
    let mut copy = Text::new(alloc);
    copy.push_all(name)?;
    Ok(MemFile {
        name: copy,
        bytes: Vec::from_slice(alloc, bytes)?,
    })
}

// An empty file with room for so many bytes.
fn empty_file(alloc: Global, name: &[u8], room: usize) -> Result<MemFile, OutOfMemory>
    ensures name { IfOk result (λ file. file.name ≡ name.now) }
    ensures empty { IfOk result (λ file. file.bytes.items ≡ []) }
    ensures within { IfOk result (λ file. vec_len file.bytes ≤ room) }
    ensures reserved { IfOk result (λ file. room ≤ vec_capacity file.bytes) }
{
    let mut copy = Text::new(alloc);
    copy.push_all(name)?;
    Ok(MemFile {
        name: copy,
        bytes: Vec::with_capacity(alloc, room)?,
    })
}

impl MemShelf {
    /// A shelf without files. Each written file will have room for so many bytes. `fails` lists the numbers, from 1, of
    /// the calls of `load`, `create`, `write` and `close` that are to fail; a call that finds no memory has no number.
    /// It is refused only where no memory is found.
    pub fn new(alloc: Global, room: usize, fails: &[u64]) -> Result<MemShelf, OutOfMemory>
        ensures { IfOk result (λ shelf. shelf ≡ record {
          files = [];
          is_open = false;
          last_failure = None;
          room = room;
          calls = record { fails = fails.now; count = 0; faults = 0 };
        }) }
    {
        Ok(MemShelf {
            files: Vec::new(alloc),
            is_open: false,
            last_failure: LastFailure {
                call: None,
                name: Vec::new(alloc),
            },
            room,
            calls: CallCounter::new(alloc, fails)?,
        })
    }

    /// Puts these bytes in place of what the file of this name held, or makes the file. No file is open. It is no
    /// call that `fails` counts. Where no memory is found, the shelf is as it was.
    pub fn put_file(&mut self, name: &[u8], bytes: &[u8]) -> Result<(), OutOfMemory>
        requires { self.old.is_open ≡ false }

        ensures ok { OnOk result (PutsFile name.now bytes.now (file_of self.old.files) (file_of self.new.files)) }
        ensures rest { self.new ≡ record self.old { files = self.new.files } }
        ensures out_of_memory { OnErr result (self.new ≡ self.old) }
    {
        let file = full_file(*self.files.allocator(), name, bytes)?;
        reserve_place(&mut self.files)?;
        put_first(&mut self.files, file);
        Ok(())
    }

    /// The bytes of the file of this name, and none exactly where there is no such file.
    pub fn file(&self, name: &[u8]) -> Option<&[u8]>
        ensures { option_copied result ≡ file_of self.now.files name.now }
    {
        bytes_of(&self.files, name)
    }
}

impl Shelf for MemShelf {
    ghost faults = { λ shelf. shelf.calls.faults };

    ghost files = { λ shelf. Some (file_of shelf.files) };

    ghost is_open = { λ shelf. shelf.is_open };

    ghost open_name = { open_name_of };

    ghost last_failure = { λ shelf. shelf.last_failure };

    /// Answers the bytes of a file, but at most its first `LOAD_LIMIT`. It fails exactly where the call is listed or
    /// there is no such file. Where no memory is found, the shelf is as it was.
    fn load(&mut self, alloc: Global, name: &[u8]) -> Result<Text, PortErr>
        ensures fails { FailsExactly result (fails_to_load self.old name.now) }
        ensures out_of_memory { IsErrOf result PortErr.OutOfMemory → self.new ≡ self.old }
        ensures state { IsErrOf result PortErr.OutOfMemory
            ⊎ (self.new ≡ after_call (is_failed result) ShelfCall.Load name.now self.old) }

        ensures loaded { IfOk result (Loads (file_of self.old.files) name.now) }
        ensures limit { IfOk result (λ text. length text ≤ LOAD_LIMIT) }
        ensures files { SameFiles (file_of self.old.files) (file_of self.new.files) }
        ensures open { self.new.is_open ≡ self.old.is_open }
        ensures open_name { open_name_of self.new ≡ open_name_of self.old }
        ensures cause { CountsFailure (is_failed result) self.old.calls.faults self.new.calls.faults }
        ensures last { KeepsLastFailure (Some (file_of self.old.files)) ShelfCall.Load name.now (is_failed result)
            self.old.last_failure self.new.last_failure }
    {
        reserve_name(&mut self.last_failure.name, name)?;
        let text = loaded(alloc, &self.files, name)?;
        let listed = self.calls.count_call();
        match text {
            Some(text) if !listed => Ok(text),
            _ => {
                keep_failure(
                    &mut self.calls,
                    &mut self.last_failure,
                    ShelfCall::Load,
                    name,
                );
                Err(PortErr::Failed)
            }
        }
    }

    /// Makes the named file empty and open. It fails exactly where the call is listed, and then no file is changed
    /// and none is open. Where no memory is found, the shelf is as it was.
    fn create(&mut self, name: &[u8]) -> Result<(), PortErr>
        requires { self.old.is_open ≡ false }

        ensures fails { FailsExactly result (is_next_listed self.old.calls) }
        ensures state { IsErrOf result PortErr.OutOfMemory
            ⊎ (self.new ≡ record (after_call (is_failed result) ShelfCall.Create name.now self.old) {
              files = self.new.files;
              is_open = is_ok result;
            }) }

        ensures ok { OnOk result (Empties name.now (file_of self.old.files) (file_of self.new.files)) }
        ensures opened { OnOk result (self.new.is_open ≡ true) }
        ensures open_name { OnOk result (open_name_of self.new ≡ name.now) }
        ensures out_of_memory { IsErrOf result PortErr.OutOfMemory → self.new ≡ self.old }
        ensures failed { IsErrOf result PortErr.Failed → self.new.files ≡ self.old.files }
        ensures cause { CountsFailure (is_failed result) self.old.calls.faults self.new.calls.faults }
        ensures last { KeepsLastFailure (Some (file_of self.old.files)) ShelfCall.Create name.now (is_failed result)
            self.old.last_failure self.new.last_failure }
    {
        reserve_name(&mut self.last_failure.name, name)?;
        let file = empty_file(*self.files.allocator(), name, self.room)?;
        reserve_place(&mut self.files)?;
        if self.calls.count_call() {
            keep_failure(
                &mut self.calls,
                &mut self.last_failure,
                ShelfCall::Create,
                name,
            );
            return Err(PortErr::Failed);
        }
        put_first(&mut self.files, file);
        self.is_open = true;
        Ok(())
    }

    /// Appends the piece to the open file. It fails exactly where the call is listed, and then appends nothing, or
    /// where the piece passes the room, and then appends what fits.
    fn write(&mut self, piece: &[u8]) -> Result<(), Failed>
        requires { self.old.is_open ≡ true }

        ensures fails { is_err result ≡ fails_to_write self.old piece.now }
        ensures state { self.new ≡ record
            (after_call (is_err result) ShelfCall.Write (open_name_of self.old) self.old) {
              files = with_more (appended self.old piece.now) self.old.files;
            } }

        ensures ok { OnOk result (AppendsTo (open_name_of self.old) piece.now (file_of self.old.files)
            (file_of self.new.files)) }
        ensures failed { OnErr result (AppendsPrefixTo (open_name_of self.old) piece.now (file_of self.old.files)
            (file_of self.new.files)) }
        ensures open { self.new.is_open ≡ true }
        ensures open_name { open_name_of self.new ≡ open_name_of self.old }
        ensures cause { CountsFailure (is_err result) self.old.calls.faults self.new.calls.faults }
        ensures last { KeepsLastFailure (Some (file_of self.old.files)) ShelfCall.Write (open_name_of self.old)
            (is_err result)
            self.old.last_failure self.new.last_failure }
    {
        let listed = self.calls.count_call();
        if append_unless(listed, &mut self.files, self.room, piece) {
            return Ok(());
        }
        keep_failure(
            &mut self.calls,
            &mut self.last_failure,
            ShelfCall::Write,
            self.files[0].name.bytes(),
        );
        Err(Failed)
    }

    /// Closes the open file. It fails exactly where the call is listed, and then the file is still open.
    fn close(&mut self) -> Result<(), Failed>
        requires { self.old.is_open ≡ true }

        ensures fails { is_err result ≡ is_next_listed self.old.calls }
        ensures state { self.new ≡ record
            (after_call (is_err result) ShelfCall.Close (open_name_of self.old) self.old) {
              is_open = is_err result;
            } }

        ensures closed { OnOk result (self.new.is_open ≡ false) }
        ensures files { SameFiles (file_of self.old.files) (file_of self.new.files) }
        ensures cause { CountsFailure (is_err result) self.old.calls.faults self.new.calls.faults }
        ensures last { KeepsLastFailure (Some (file_of self.old.files)) ShelfCall.Close (open_name_of self.old)
            (is_err result)
            self.old.last_failure self.new.last_failure }
    {
        if self.calls.count_call() {
            keep_failure(
                &mut self.calls,
                &mut self.last_failure,
                ShelfCall::Close,
                self.files[0].name.bytes(),
            );
            return Err(Failed);
        }
        self.is_open = false;
        Ok(())
    }
}
