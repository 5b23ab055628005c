ghost use Rattle.std.specs.Prelude.{◌≡◌, ◌<◌, IfSome, drop, take, min, length, vec_len};
ghost use Rattle.outside_memory.specs.Files.{file_at, name_in, bytes_in};

use crate::file_name::FileName;
use crate::places::Place;

/// A file: its name and its bytes.
pub(crate) type File = (FileName, Vec<u8>);

/// The place of the first file of this name.
pub(crate) fn place_of(files: &Vec<File>, name: &str) -> Option<usize>
    ensures first { result ≡ file_at files.now.items name.now }
    ensures within { IfSome result (λ place. place < vec_len files.now) }
{
    files.iter().position(|file| file.0.is(name))
}

/// The name of the file at a place, and the empty name where there is none.
pub(crate) fn name_at(files: &Vec<File>, place: usize) -> &str
    ensures { result.now ≡ name_in files.now.items place }
{
    match files.get(place) {
        Some(file) => file.0.as_str(),
        None => "",
    }
}

/// The bytes of the file at a place, and no bytes where there is none.
pub(crate) fn bytes_at(files: &Vec<File>, place: usize) -> &[u8]
    ensures { result.now ≡ bytes_in files.now.items place }
{
    match files.get(place) {
        Some(file) => file.1.as_slice(),
        None => &[],
    }
}

/// The bytes that a reader has left.
pub(crate) fn rest_of(files: &Vec<File>, place: Place) -> &[u8]
    ensures { result.now ≡ drop place.at (bytes_in files.now.items place.file) }
{
    let bytes = bytes_at(files, place.file);
    &bytes[place.at.min(bytes.len())..]
}

/// Copies as many of the first bytes as there is room for, and gives their number.
pub(crate) fn copy_front(from: &[u8], into: &mut [u8]) -> usize
    ensures count { result ≡ min (length from.now) (length into.old) }
    ensures copied { take result into.new ≡ take result from.now }
{
    let count = from.len().min(into.len());
    into[..count].copy_from_slice(&from[..count]);
    count
}
