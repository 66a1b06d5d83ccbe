//! Files of the system.

use crate::found::{holds, is};
use crate::memory::reads;
use sms_file::{FileFault, HostFolder, Step, Why, replace};
use std::alloc::Global;
use std::fs::{self, File, Permissions};
use std::os::unix::fs::{PermissionsExt, symlink};
use std::process::Abort;
use std::rt::{Env, Files};
use std::test::Fail;
use std::{env, io};

/// The path of a folder of the test's own, which is empty.
fn empty_folder<R: Files + Env + AllocGlobal>(rt: &R, name: &str) -> io::Result<String> {
    let room = env::temp_dir(rt)?;
    let path = format!(in rt.alloc(); "{}/sms_file_tests_{name}", room.as_str())?;
    let _ = fs::remove_dir_all(rt, &path);
    fs::create_dir(rt, &path)?;
    Ok(path)
}

/// The path of a file in a folder.
fn path_in(alloc: Global, folder: &str, name: &str) -> Result<String, Fail> {
    Ok(format!(in alloc; "{folder}/{name}")?)
}

/// The rights of a file.
fn rights_of(rt: &impl Files, path: &str) -> io::Result<u32> {
    Ok(fs::metadata(rt, path)?.permissions().mode() & 0o7777)
}

/// Why a file is not opened.
fn fault_of<R: Files<File = File> + AllocGlobal + Drop>(files: R, path: &str) -> Option<FileFault> {
    HostFolder::open(files, path).err()
}

/// Puts a file and its rights there.
fn put_file(rt: &impl Files, path: &str, octets: &[u8], rights: u32) -> io::Result<()> {
    fs::write(rt, path, octets)?;
    fs::set_permissions(rt, path, Permissions::from_mode(rights))
}

#[test]
fn a_file_is_made_and_replaced(rt: HostRuntime) -> Result<(), Fail> {
    let alloc = rt.alloc();
    let room = empty_folder(&rt, "made")?;
    let path = path_in(alloc, &room, "file")?;
    let beside = path_in(alloc, &room, "file.new")?;
    let mut folder = HostFolder::open(rt.clone()?, &path).map_err(|_| "not opened")?;
    holds(&rt, "none", reads(alloc, &folder, None));
    is(&rt, "made", replace(&mut folder, b"first"), Ok(()));
    holds(&rt, "made", reads(alloc, &folder, Some(b"first")));
    is(&rt, "own rights", rights_of(&rt, &path)?, 0o600);
    is(&rt, "replaced", replace(&mut folder, b"second"), Ok(()));
    holds(&rt, "replaced", reads(alloc, &folder, Some(b"second")));
    holds(&rt, "nothing beside", !fs::exists(&rt, &beside)?);
    Ok(fs::remove_dir_all(&rt, &room)?)
}

#[test]
fn a_second_run_is_kept_out(rt: HostRuntime) -> Result<(), Fail> {
    let alloc = rt.alloc();
    let room = empty_folder(&rt, "locked")?;
    let path = path_in(alloc, &room, "file")?;
    let folder = HostFolder::open(rt.clone()?, &path).map_err(|_| "not opened")?;
    let in_use = FileFault {
        step: Step::Lock,
        why: Why::InUse,
    };
    is(&rt, "open", fault_of(rt.clone()?, &path), Some(in_use));
    drop(folder);
    is(&rt, "closed", fault_of(rt.clone()?, &path), None);
    Ok(fs::remove_dir_all(&rt, &room)?)
}

#[test]
fn rights_are_kept_and_links_followed(rt: HostRuntime) -> Result<(), Fail> {
    let alloc = rt.alloc();
    let room = empty_folder(&rt, "kept")?;
    let path = path_in(alloc, &room, "file")?;
    let link = path_in(alloc, &room, "link")?;
    put_file(&rt, &path, b"old", 0o640)?;
    put_file(&rt, &path_in(alloc, &room, "file.new")?, b"left", 0o666)?;
    symlink(&rt, "file", &link)?;
    let mut folder = HostFolder::open(rt.clone()?, &link).map_err(|_| "not opened")?;
    holds(&rt, "old", reads(alloc, &folder, Some(b"old")));
    is(&rt, "link", replace(&mut folder, b"new"), Ok(()));
    is(&rt, "rights", rights_of(&rt, &path)?, 0o640);
    holds(
        &rt,
        "file",
        fs::read(&rt, &path)?.as_slice() == b"new".as_slice(),
    );
    holds(&rt, "link", fs::symlink_metadata(&rt, &link)?.is_symlink());
    Ok(fs::remove_dir_all(&rt, &room)?)
}

#[test]
fn refusals_leave_the_file(rt: HostRuntime) -> Result<(), Fail> {
    let alloc = rt.alloc();
    let room = empty_folder(&rt, "refused")?;
    let path = path_in(alloc, &room, "file")?;
    let lost = path_in(alloc, &room, "none/file")?;
    let no_folder = FileFault {
        step: Step::Open,
        why: Why::NotFound,
    };
    is(
        &rt,
        "no folder",
        fault_of(rt.clone()?, &lost),
        Some(no_folder),
    );
    put_file(&rt, &path, b"old", 0o600)?;
    fs::create_dir(&rt, &path_in(alloc, &room, "file.new")?)?;
    let mut folder = HostFolder::open(rt.clone()?, &path).map_err(|_| "not opened")?;
    let step = replace(&mut folder, b"new").err().map(|fault| fault.step);
    is(&rt, "a folder beside", step, Some(Step::Write));
    holds(&rt, "old", reads(alloc, &folder, Some(b"old")));
    Ok(fs::remove_dir_all(&rt, &room)?)
}
