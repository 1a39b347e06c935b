//! Room on the disk of a served store: a file beside it, which is cut when an order needs room. That these lines do so
//! is read and tested; only how the first line of that file is read is proved.
ghost use Rattle.std.specs.Prelude.{◌≡◌, ◌<◌, ◌^◌, ℕ, [], IfSome, Some, if◌then◌else◌};
ghost use Rattle.std.specs.Str.{IsUtf8};
ghost use Rattle.runner.specs.Reserve.{IsFirstLine};

use control::{KeepsRoom, Reserve, Room};
use sqlite::Alter;
use std::fs::{self, File, Metadata, OpenOptions};
use std::io::{self, ErrorKind};
use std::os::unix::fs::{FileExt, MetadataExt, OpenOptionsExt};
use std::rt::HostRuntime;
use store::file_name::real_name;
use store::store::SqlShelves;
use store_files::record::Record;

/// The bytes of a reserve: 24 MiB. Whoever publishes leaves a log of at most 999 pages and those of one publish, of
/// which the largest has 4,144, and perhaps no room to copy them into the file. The next order does that first, so it
/// needs up to 21,065,728 bytes. For itself it needs 3 pages, and 256 KiB where the log grows.
const MOST: u64 = 24 << 20;

/// The bytes that a reserve is begun with. Each start doubles it up to `MOST`, as long as the disk has room.
const LEAST: u64 = MOST >> 5;

/// The bytes that stay when the room is given up.
const KEPT: u64 = 4_096;

/// What the file of a reserve begins with. The number of its bytes follows.
const TITLE: &str = "goshelf reserve of ";

/// What follows the number.
const END: &str = " bytes\n";

/// Where a reserve notes that the system reports fewer blocks for it than it has bytes, though all were written.
const MARK_AT: u64 = 64;

/// What stands there then.
const MARK: &[u8; 7] = b"packed\n";

/// The bytes that are written at once.
const PIECE: [u8; 4_096] = [0; 4_096];

/// What a reserve notes.
#[derive(Clone, Copy, Debug, Drop, PartialEq, Eq)]
pub(crate) enum Deed {
    /// It was made, or one that was there was filled, and there is so much of it.
    Made(Room),
    /// Room was asked for, and there was some to give up or none.
    GaveUp(bool),
    /// As much of it as the disk has room for was taken again, and so much was found.
    Renewed(Room),
    /// A copy was begun, to a file with the path that is noted beside this.
    BeganCopy,
}

/// The reserve of the store of a file. It notes what is done to it, and the copies of the store.
#[derive(Drop)]
pub(crate) struct SystemReserve<'a> {
    rt: &'a HostRuntime,
    /// The file of the store.
    db: &'a str,
    noted: Record<Deed>,
}

impl<'a> SystemReserve<'a> {
    /// Returns the reserve of the store at `db`, to which nothing was done.
    pub(crate) fn new(rt: &'a HostRuntime, db: &'a str) -> SystemReserve<'a>
        ensures { result.noted.deeds ≡ [] }
    {
        SystemReserve {
            rt,
            db,
            noted: Record::new(),
        }
    }
}

impl<'a> KeepsRoom for SystemReserve<'a> {
    ghost use Rattle.std.specs.Prelude.{map};
    ghost use Rattle.runner.specs.Reserve.{disk_deed};

    ghost deeds = { λ r. map disk_deed r.noted.deeds };

    fn make_room(&mut self) -> Room {
        let room = make(self.rt, self.db);
        self.noted.note(b"", &Deed::Made(room));
        room
    }

    fn keep_room(&mut self) -> Room {
        let room = keep(self.rt, self.db);
        self.noted.note(b"", &Deed::Renewed(room));
        room
    }

    fn note_copy(&mut self, path: &str) {
        self.noted.note(path.as_bytes(), &Deed::BeganCopy);
    }
}

impl<'a, S: Alter> Reserve<SqlShelves<S>> for SystemReserve<'a> {
    fn give_up_room(&mut self) -> bool {
        let given = give_up(self.rt, self.db);
        self.noted.note(b"", &Deed::GaveUp(given));
        given
    }
}

/// Gives up the reserve of the store at `db`, and returns whether there was one. Errors are ignored.
fn give_up(rt: &HostRuntime, db: &str) -> bool {
    cut(rt, db).unwrap_or(false)
}

/// Makes the reserve of the store at `db` if there is none, fills it as far as the disk has room, and returns how much
/// of it is there. `Missing` if it can't be made, or if another file has its name.
fn make(rt: &HostRuntime, db: &str) -> Room {
    begun(rt, db).unwrap_or(Room::Missing)
}

/// Fills the reserve of the store at `db` as far as the disk has room, and returns how much of it is there.
fn keep(rt: &HostRuntime, db: &str) -> Room {
    filled(rt, db).unwrap_or(Room::Missing)
}

fn cut(rt: &HostRuntime, db: &str) -> io::Result<bool> {
    let Some(file) = opened(rt, db, name_of(rt, db)?.as_str())? else {
        return Ok(false);
    };
    if file.metadata()?.len() <= KEPT {
        return Ok(false);
    }
    file.set_len(KEPT)?;
    // Some file systems have the room only then. It is given up even if that fails.
    let _ = file.sync_all();
    Ok(true)
}

fn begun(rt: &HostRuntime, db: &str) -> io::Result<Room> {
    let name = name_of(rt, db)?;
    let Some(file) = opened(rt, db, name.as_str())? else {
        let is_made = made(rt, name.as_str())?;
        return Ok(if is_made { Room::Whole } else { Room::Missing });
    };
    Ok(whole_or_short(refilled(&file)? && enlarged(rt, &file)?))
}

fn filled(rt: &HostRuntime, db: &str) -> io::Result<Room> {
    let Some(file) = opened(rt, db, name_of(rt, db)?.as_str())? else {
        return Ok(Room::Missing);
    };
    Ok(whole_or_short(refilled(&file)?))
}

/// Returns how much there is of a reserve, by whether all of it is there.
fn whole_or_short(is_whole: bool) -> Room
    ensures { result ≡ if is_whole then Room.Whole else Room.Short }
{
    if is_whole { Room::Whole } else { Room::Short }
}

/// Fills a reserve up to the bytes that it is to have, as far as the disk has room, and returns whether it has them.
fn refilled(file: &File) -> io::Result<bool> {
    let bytes = bytes_of(file)?;
    let end = end_of(file)?;
    if end >= bytes {
        return Ok(true);
    }
    Ok(fill(file, end, bytes) && sync(file).is_ok())
}

/// Returns where a reserve ends. One with holes is cut first, so that it is filled anew.
fn end_of(file: &File) -> io::Result<u64> {
    let found = file.metadata()?;
    if !has_holes(&found) || is_marked(file)? {
        return Ok(found.len());
    }
    file.set_len(KEPT)?;
    Ok(KEPT)
}

/// Whether a file has fewer blocks on the disk than bytes. The bytes that stay when the room is given up don't count:
/// they hold little more than a line, so some of their blocks may be missing.
fn has_holes(found: &Metadata) -> bool {
    found.blocks().saturating_mul(512).saturating_add(KEPT) < found.len()
}

/// Has the system write a reserve to the disk. Marks it if it has fewer blocks than bytes all the same, as where a file
/// system packs zeros: then it is not filled once more.
fn sync(file: &File) -> io::Result<()> {
    file.sync_all()?;
    if has_holes(&file.metadata()?) && !is_marked(file)? {
        let _ = file.write_all_at(MARK, MARK_AT);
    }
    Ok(())
}

/// Whether a reserve is marked.
fn is_marked(file: &File) -> io::Result<bool> {
    let mut mark = [0; 7];
    let read = file.read_at(&mut mark, MARK_AT)?;
    Ok(read == 7 && mark == *MARK)
}

/// Returns the name of the reserve of a store: it stands beside the file that its name leads to. Fails only if memory
/// runs out.
fn name_of(rt: &HostRuntime, db: &str) -> io::Result<String> {
    let real = real_name(rt, db)?;
    Ok(format!(in rt.alloc(); "{}-reserve", real.as_str())?)
}

/// Opens the reserve of the store at `db`, or returns None if there is no file of this name. Fails if the file is no
/// reserve, or has another name too.
///
/// An empty file, as a kill right after its creation leaves it, becomes one to be filled if the owner of the store owns
/// it.
fn opened(rt: &HostRuntime, db: &str, name: &str) -> io::Result<Option<File>> {
    let named = match fs::symlink_metadata(rt, name) {
        Err(error) if error.kind() == ErrorKind::NotFound => return Ok(None),
        found => found?,
    };
    if !named.is_file() || named.nlink() != 1 {
        return Err(ErrorKind::Unsupported.into());
    }
    let file = OpenOptions::new().read(true).write(true).open(rt, name)?;
    let found = file.metadata()?;
    if found.dev() != named.dev() || found.ino() != named.ino() {
        return Err(ErrorKind::Unsupported.into());
    }
    if found.len() == 0 && found.uid() == fs::metadata(rt, db)?.uid() {
        name_bytes(rt, &file, LEAST)?;
    }
    let _bytes = bytes_of(&file)?;
    Ok(Some(file))
}

/// Returns how many bytes a reserve is to have. Fails if the file is none.
fn bytes_of(file: &File) -> io::Result<u64> {
    let mut front = [0; 64];
    let read = file.read_at(&mut front, 0)?;
    match number_in(&front[..read]) {
        Some(bytes) if bytes >= LEAST && bytes <= MOST => Ok(bytes),
        _ => Err(ErrorKind::Unsupported.into()),
    }
}

/// Returns the number that the first line of a reserve names. None if these bytes are not UTF-8, do not begin with such
/// a line, or name a number of more than 64 bits.
fn number_in(front: &[u8]) -> Option<u64>
    ensures found { IfSome result (λ bytes. IsUtf8 front.now × IsFirstLine front.now bytes) }
    ensures only { (bytes : ℕ) → bytes < 2 ^ 64 → IsUtf8 front.now → IsFirstLine front.now bytes
        → result ≡ Some bytes }
{
    let text = str::from_utf8(front).ok()?;
    let (number, _) = text.strip_prefix(TITLE)?.split_once(END)?;
    number.parse().ok()
}

/// Makes a reserve, as large as the disk has room for, and returns whether it is there. If not, it leaves no file.
fn made(rt: &HostRuntime, name: &str) -> io::Result<bool> {
    let file = OpenOptions::new()
        .read(true)
        .write(true)
        .create_new(true)
        .mode(0o600)
        .open(rt, name)?;
    match grown(rt, &file) {
        Ok(true) => Ok(true),
        failed => {
            let _ = fs::remove_file(rt, name);
            failed
        }
    }
}

/// Writes the bytes of a new reserve, and returns whether all of it is there. False if the disk has no room for
/// `LEAST`.
fn grown(rt: &HostRuntime, file: &File) -> io::Result<bool> {
    name_bytes(rt, file, LEAST)?;
    Ok(fill(file, KEPT, LEAST) && enlarged(rt, file)?)
}

/// Doubles a whole reserve, as `doubled` does, and returns whether it is whole then. One that can't be made larger is,
/// unless the system could not write it to the disk.
fn enlarged(rt: &HostRuntime, file: &File) -> io::Result<bool> {
    match doubled(rt, file) {
        Ok(()) => Ok(true),
        Err(_) => refilled(file),
    }
}

/// Doubles a reserve up to `MOST` bytes, as long as the disk has room.
fn doubled(rt: &HostRuntime, file: &File) -> io::Result<()> {
    let mut bytes = bytes_of(file)?;
    for _ in 0..64 {
        if bytes >= MOST {
            break;
        }
        let double = bytes.saturating_mul(2).min(MOST);
        if !fill(file, bytes, double) {
            file.set_len(bytes)?;
            break;
        }
        bytes = double;
        name_bytes(rt, file, bytes)?;
    }
    sync(file)
}

/// Writes the first line of a reserve.
fn name_bytes(rt: &HostRuntime, file: &File, bytes: u64) -> io::Result<()> {
    let line = format!(in rt.alloc(); "{TITLE}{bytes}{END}")?;
    file.write_all_at(line.as_str().as_bytes(), 0)
}

/// Writes zeros to a reserve from one position to another, up to the first write that fails, and returns whether none
/// did. Most fail because the disk is full, but one that fails for another cause keeps no room either.
fn fill(file: &File, from: u64, to: u64) -> bool {
    let mut at = from;
    for _ in 0..MOST {
        if at >= to {
            return true;
        }
        let most = (to - at).min(KEPT) as usize;
        match file.write_at(&PIECE[..most], at) {
            Ok(0) | Err(_) => return false,
            Ok(written) => at = at.saturating_add(written as u64),
        }
    }
    false
}
