//! A library over the files of a real folder.
use crate::memory::told;
use cu_io::{FolderLibrary, Library};
use std::test::Fail;
use std::{env, fs, process};

/// Modules, and what is answered in a folder with the file `A/B.curry` and the
/// folder `A/D.curry`.
const MODULES: [(&str, &str); 3] = [("A.B", "text"), ("A.C", "absent"), ("A.D", "failed")];

#[test]
fn a_folder_gives_the_files_of_modules(rt: HostRuntime) -> Result<(), Fail> {
    let alloc = rt.alloc();
    let name = format!(in alloc; "cu_io-test-{}", process::id(rt.process()))?;
    let dir = env::temp_dir(&rt)?.join(alloc, name.as_str())?;
    let inner = dir.join(alloc, "A")?;
    let folder = inner.join(alloc, "D.curry")?;
    fs::create_dir(&rt, dir.as_path())?;
    fs::create_dir(&rt, inner.as_path())?;
    fs::create_dir(&rt, folder.as_path())?;
    let file = inner.join(alloc, "B.curry")?;
    fs::write(&rt, file.as_path(), "text")?;
    let mut library = FolderLibrary::new(&rt);
    for (module, expected) in &MODULES {
        let fetched = library.fetch(alloc, dir.as_str(), module)?;
        assert_eq!(rt; told(&fetched), expected.as_bytes(), "{module}");
    }
    let of_file = library.file(alloc, file.as_str())?;
    let below_file = library.fetch(alloc, file.as_str(), "B")?;
    fs::remove_dir_all(&rt, dir.as_path())?;
    assert_eq!(rt; told(&of_file), b"text".as_slice());
    assert_eq!(rt; told(&below_file), b"failed".as_slice());
    assert_eq!(rt; library.faults(), 2);
    Ok(())
}
