// Where a file was looked for, and which of the files there may be meant.
use crate::asked::AskedShelf;
use p8_io::{Shelf, Sink, write_pieces};
use std::alloc::{AllocError, AllocGlobal, Global};
use std::fs;
use std::path::{Path, PathBuf};
use std::rt::Files;

/// Tells where the first file that was missing was looked for, a line for each place, and behind it which files may be meant there: those whose
/// names differ in the case of their letters alone, and the one of that name without its end `.spin`. `folders` are those in which the shelf looks
/// besides. Of a file that a source mentions it is told on `out`, behind the explanation, and of the top file on `faults`, behind its line.
///
/// Where there was no memory for a name nothing is told, and where there is none for more no more is.
pub fn tell_places<R: Files + AllocGlobal + Clone + Drop, S: Shelf, K: Sink, E: Sink>(
    rt: &R,
    asked: &AskedShelf<S>,
    folders: Vec<PathBuf>,
    out: &mut K,
    faults: &mut E,
) -> Result<(), AllocError> {
    let (Some(first), Some(missing)) = (asked.first(), asked.missing()) else {
        return Ok(());
    };
    if first == missing {
        return tell_each(rt, &places_of(rt.alloc(), &[], missing)?, faults);
    }
    tell_each(
        rt,
        &mentioned_places(rt.alloc(), first, folders, missing)?,
        out,
    )
}

// Tells some places.
fn tell_each<R: Files + AllocGlobal + Clone + Drop, E: Sink>(
    rt: &R,
    places: &[PathBuf],
    told: &mut E,
) -> Result<(), AllocError> {
    let _ = write_pieces(told, &[b"It was looked for as\n"]);
    for place in places {
        tell_place(rt, place.as_path(), told)?;
    }
    Ok(())
}

// The places of a file that a source mentions, by the name of the top file: those of its name, and then, where that doesn't end in `.spin`, those of its
// name with `.spin` behind it.
fn mentioned_places(
    alloc: Global,
    first: &str,
    mut folders: Vec<PathBuf>,
    name: &str,
) -> Result<Vec<PathBuf>, AllocError> {
    if let Some(folder) = Path::new(first).parent() {
        folders.insert(0, folder.to_path_buf(alloc)?)?;
    }
    let mut places = places_of(alloc, &folders, name)?;
    if !name.ends_with(".spin") {
        let name = format!(in alloc; "{name}.spin")?;
        for place in places_of(alloc, &folders, &name)? {
            places.push(place)?;
        }
    }
    Ok(places)
}

// The places of a name: as it stands, and then in each of the folders. A path from the root has one.
fn places_of(alloc: Global, folders: &[PathBuf], name: &str) -> Result<Vec<PathBuf>, AllocError> {
    let name = Path::new(name);
    let mut places = Vec::new(alloc);
    places.push(name.to_path_buf(alloc)?)?;
    for folder in folders {
        let place = folder.as_path().join(alloc, name)?;
        if !places.contains(&place) {
            places.push(place)?;
        }
    }
    Ok(places)
}

// Tells a place, and which files of its folder may be meant.
fn tell_place<R: Files + AllocGlobal + Clone + Drop, E: Sink>(
    rt: &R,
    place: Path<'_>,
    faults: &mut E,
) -> Result<(), AllocError> {
    let _ = write_pieces(faults, &[b"  ", place.as_str().as_bytes(), b"\n"]);
    if let (Some(folder), Some(name)) = (place.parent(), place.file_name()) {
        for found in &meant_in(rt, folder, name)? {
            let _ = write_pieces(faults, &[b"    there is ", found.as_bytes(), b"\n"]);
        }
    }
    Ok(())
}

// The names of those files of a folder that may be meant by a name, in their order. A folder that can't be read has none.
fn meant_in<R: Files + AllocGlobal + Clone + Drop>(
    rt: &R,
    folder: Path<'_>,
    name: &str,
) -> Result<Vec<String>, AllocError> {
    let mut names = Vec::new(rt.alloc());
    let folder = if folder.as_str().is_empty() {
        Path::new(".")
    } else {
        folder
    };
    let Ok(entries) = fs::read_dir(rt, folder) else {
        return Ok(names);
    };
    for entry in entries {
        if let Ok(entry) = entry {
            let found = entry.file_name();
            if may_mean(name, found) && entry.path().is_file(rt) {
                names.push(String::from_str(rt.alloc(), found)?)?;
            }
        }
    }
    names.sort_unstable();
    Ok(names)
}

// Whether a file may be meant by a name that isn't its own.
fn may_mean(name: &str, found: &str) -> bool {
    let differs_in_case = name.eq_ignore_ascii_case(found) && name != found;
    differs_in_case || name.strip_suffix(".spin") == Some(found)
}
