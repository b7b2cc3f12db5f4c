//! Reading the texts of files. `read_files` is the call for a command: it reads the files in their order, each whole, as
//! long as their texts may yet make a unit.
ghost use Rattle.std.specs.Prelude.{◌≡◌, ◌≤◌, ◌<◌, ℕ, List, length, IfOk, IfErr, true, ◌^◌, map, string_bytes};
ghost use Rattle.st_main.specs.Answer.{library_of};
ghost use Rattle.st_main.specs.Making.{MemoryOr};
ghost use Rattle.st_main.specs.Reading.{HasRead, HasStart, IsReadFault, IsUnread, Reads};

use st_base::map::MOST_TEXT;
use st_base::outside::Files;
use st_print::Fault;
use std::alloc::Global;

/// Reads the files of these names, of which there are 1 to 64, until their ends or until the texts together have more than
/// 1,048,576 bytes. Such texts make no unit, whatever the files hold behind them, which aren't read then.
pub fn read_files<F: Files>(
    alloc: Global,
    files: &mut F,
    names: &[String],
) -> Result<Vec<Vec<u8>>, Fault>
    requires some { 1 ≤ length names.now }
    requires few { length names.now ≤ 64 }
    ensures contents { F.contents files.new ≡ F.contents files.old }
    ensures faults { F.faults files.old ≤ F.faults files.new }
    ensures fault { IfErr result (MemoryOr (IsReadFault (library_of (F.contents files.old) (F.faults files.old) (F.faults files.new)) (map (λ n. string_bytes n) names.now))) }
    ensures some { IfOk result (λ texts. 1 ≤ length texts.items) }
    ensures few { IfOk result (λ texts. length texts.items ≤ length names.now) }
    ensures texts { IfOk result (λ texts. HasRead (F.contents files.old) (map (λ n. string_bytes n) names.now) (map (λ t. t.items) texts.items)) }
{
    let mut texts = Vec::new(alloc);
    let mut room = MOST_TEXT;
    for (i, name) in names.iter().enumerate() {
        let text = read_text(alloc, files, name.as_str(), i as u32 + 1, room)?;
        let length = text.as_slice().len();
        texts.push(text)?;
        if room < length {
            return Ok(texts);
        }
        room -= length;
    }
    Ok(texts)
}

/// Reads a file, which has this number, from its front until its end, or until more bytes are read than there is room for.
fn read_text<F: Files>(
    alloc: Global,
    files: &mut F,
    name: &str,
    number: u32,
    room: usize,
) -> Result<Vec<u8>, Fault>
    requires { room ≤ 1048576 }
    ensures contents { F.contents files.new ≡ F.contents files.old }
    ensures faults { F.faults files.old ≤ F.faults files.new }
    ensures fault { IfErr result (MemoryOr (IsUnread number (F.faults files.old) (F.faults files.new))) }
    ensures text { IfOk result (λ text. HasStart (F.contents files.old) name.now room text.items) }
{
    let mut text = Vec::new(alloc);
    while text.len() <= room {
        if !read_piece(files, name, number, &mut text)? {
            return Ok(text);
        }
    }
    Ok(text)
}

/// Reads the next bytes of a file behind those that were read; false where there are no more.
fn read_piece<F: Files>(
    files: &mut F,
    name: &str,
    number: u32,
    text: &mut Vec<u8>,
) -> Result<bool, Fault>
    requires { length text.old.items < 2 ^ 32 }
    ensures contents { F.contents files.new ≡ F.contents files.old }
    ensures faults { F.faults files.old ≤ F.faults files.new }
    ensures fault { IfErr result (MemoryOr (IsUnread number (F.faults files.old) (F.faults files.new))) }
    ensures more { IfOk result (λ more. more ≡ true → length text.old.items < length text.new.items) }
    ensures read { IfOk result (λ more. Reads (F.contents files.old) name.now text.old.items text.new.items more) }
{
    let mut buffer = [0; 4096];
    let place = text.as_slice().len();
    let Ok(count) = files.read_at(name, place as u64, &mut buffer) else {
        return Err(Fault::ReadFile { file: number });
    };
    text.extend_from_slice(&buffer[..count])?;
    Ok(count > 0)
}
