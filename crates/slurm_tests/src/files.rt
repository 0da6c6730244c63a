// What no clause says of the system's files: which bytes are read, and what is a fault.
use slurm_io::{Failed, FileShelf, Shelf, ShelfRefusal, read_file};
use std::fs;
use std::test::Fail;

#[test]
fn a_file_is_read(rt: HostRuntime) -> Result<(), Fail> {
    let name = "read.conf";
    fs::write(&rt, name, "NodeName=n1\n")?;
    let mut shelf = FileShelf::new(&rt);
    let mut into = [b'?'; 4];
    assert_eq!(rt; shelf.read_at(name, 9, &mut into), Ok(3));
    assert_eq!(rt; into, *b"n1\n?");
    assert_eq!(rt; shelf.read_at(name, 12, &mut into), Ok(0));
    assert_eq!(rt; shelf.faults, 0);
    fs::remove_file(&rt, name)?;
    assert_eq!(rt; shelf.read_at(name, 9, &mut into), Err(Failed));
    assert_eq!(rt; (into, shelf.faults), (*b"n1\n?", 1));
    Ok(())
}

#[test]
fn a_file_is_read_in_pieces(rt: HostRuntime) -> Result<(), Fail> {
    let name = "pieces.conf";
    let alloc = rt.alloc();
    let mut text = vec![in alloc; b'x'; 100_000]?;
    text.push(b'!')?;
    fs::write(&rt, name, text.as_slice())?;
    let mut shelf = FileShelf::new(&rt);
    for (most, len, last) in [
        (200_000, 100_001, b'!'),
        (100_000, 100_001, b'!'),
        (9, 10, b'x'),
    ] {
        let Ok(bytes) = read_file(alloc, &mut shelf, name, most) else {
            return Err("the file wasn't read".into());
        };
        assert_eq!(rt;
            (bytes.len(), bytes.last().copied()),
            (len, Some(last)),
            "up to {most}"
        );
    }
    fs::remove_file(&rt, name)?;
    let read = read_file(alloc, &mut shelf, name, 9);
    assert!(rt; matches!(read, Err(ShelfRefusal::Failed)));
    assert_eq!(rt; shelf.faults, 1);
    Ok(())
}
