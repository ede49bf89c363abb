use crate::disk::DiskFolder;
use crate::stream::StreamSink;
use fuun_io::{Failed, Folder, Sink};
use std::path::PathBuf;
use std::test::Fail;
use std::{env, fs, process};

/// A path that no other run of the tests has.
fn own_path(rt: &HostRuntime) -> Result<PathBuf, Fail> {
    let name = format!(in rt.alloc(); "fuun-{}.dna", process::id(rt.process()))?;
    Ok(env::temp_dir(rt)?.join(rt.alloc(), name.as_str())?)
}

#[test]
fn files_are_read_on_from_call_to_call(rt: HostRuntime) -> Result<(), Fail> {
    let path = own_path(&rt)?;
    fs::write(&rt, path.as_path(), b"ICFPI")?;
    let name = path.as_path().to_str().ok_or("a path that is text")?;
    let mut folder = DiskFolder::new(&rt);
    let mut buffer = [0; 3];
    assert_eq!(rt; folder.piece(name, 3, &mut buffer), Err(Failed));
    assert_eq!(rt; folder.piece(name, 0, &mut buffer), Ok(3));
    assert_eq!(rt; &buffer, b"ICF");
    assert_eq!(rt; folder.piece(name, 4, &mut buffer), Err(Failed));
    assert_eq!(rt; folder.piece(name, 3, &mut buffer), Ok(2));
    assert_eq!(rt; folder.piece(name, 5, &mut buffer), Ok(0));
    fs::remove_file(&rt, path.as_path())?;
    assert_eq!(rt; folder.piece(name, 0, &mut buffer), Err(Failed));
    assert_eq!(rt; folder.piece(name, 5, &mut buffer), Err(Failed));
    Ok(())
}

#[test]
fn standard_output_takes_bytes(rt: HostRuntime) -> Result<(), Fail> {
    let mut out = StreamSink::new(rt.stdout());
    assert_eq!(rt; out.put(b"ICF\n"), Ok(4));
    out.flush()?;
    Ok(())
}

#[test]
fn standard_error_takes_bytes(rt: HostRuntime) -> Result<(), Fail> {
    let mut err = StreamSink::new(rt.stderr());
    assert_eq!(rt; err.put(b"ICF\n"), Ok(4));
    Ok(())
}
