//! Sheets read into numbers.
ghost use Rattle.std.specs.Prelude.{◌≡◌, ℕ, ◌+◌, List, length, IfOk, IfErr, OnOk};
ghost use Rattle.host_calls.specs.Filled.{room_at, so_far, SamePlace, put_numbers, put_rows, answered, member_list, grid_list, reading_list, fault_list, three_places, five_places, Tells};
ghost use Rattle.sheet_kinds.specs.Tables.{members, grid, readings};
ghost use Rattle.sheets.specs.Rows.{map_ok, by_place};
ghost use Rattle.sheets.specs.Sheets.{sheet_rows};

use crate::room::{Room, held};
use sheet_kinds::{
    Grid, GridNumbers, MemberRow, Members, ReadingNumbers, Readings, SheetFault, SheetKind,
};
use sheets::NamedSheet;

/// A row as its numbers, in the order of the table of names, and a fault as sheet, line, cell and number.
trait Numbers {
    ghost listed: { Self → List ℕ };

    /// Writes the numbers one after another.
    fn put_all(&self, room: &mut Room<u64>)
        ensures after { put_numbers (so_far room.old) (listed self.now) ≡ so_far room.new }
        ensures same { SamePlace room.old room.new };
}

impl Numbers for MemberRow {
    ghost listed = { member_list };

    fn put_all(&self, room: &mut Room<u64>) {
        room.put(self.kind);
        room.put(self.pays);
        room.put(self.gets);
    }
}

impl Numbers for GridNumbers {
    ghost listed = { grid_list };

    fn put_all(&self, room: &mut Room<u64>) {
        room.put(self.block);
        room.put(self.hz100);
        room.put(self.price);
    }
}

impl Numbers for ReadingNumbers {
    ghost listed = { reading_list };

    fn put_all(&self, room: &mut Room<u64>) {
        room.put(self.member);
        room.put(self.block);
        room.put(self.scheduled);
        room.put(self.metered);
        room.put(self.available);
    }
}

impl Numbers for SheetFault {
    ghost listed = { fault_list };

    fn put_all(&self, room: &mut Room<u64>) {
        let spot = self.spot();
        room.put(u64::from(spot.sheet));
        room.put(spot.line as u64);
        room.put(spot.cell as u64);
        room.put(u64::from(self.number()));
    }
}

/// Writes the numbers of all rows.
fn put_rows<R: Numbers + Drop, K: SheetKind<Row = R>>(
    kind: &K,
    bytes: &[u8],
    room: &mut Room<u64>,
) -> Result<(), SheetFault>
    ensures same { SamePlace room.old room.new }
    ensures answer { map_ok (λ _. so_far room.new) result ≡ map_ok (put_rows (λ v. R.Numbers.listed (K.SheetKind.row_of (by_place v))) (so_far room.old)) (sheet_rows K.SheetKind.table bytes.now) }
{
    let mut sheet = NamedSheet::open(kind, bytes)?;
    while let Some(row) = sheet.next_row(kind)? {
        row.put_all(room);
    }
    Ok(())
}

/// The numbers of all rows, and how many they are.
fn read_into<R: Numbers + Drop, K: SheetKind<Row = R>>(
    kind: &K,
    bytes: &[u8],
    into: &mut [u64],
) -> Result<usize, SheetFault>
    ensures answer { map_ok (room_at into.new) result ≡ map_ok (put_rows (λ v. R.Numbers.listed (K.SheetKind.row_of (by_place v))) (room_at into.old 0)) (sheet_rows K.SheetKind.table bytes.now) }
{
    let mut room = Room::new(into);
    put_rows(kind, bytes, &mut room)?;
    Ok(room.at)
}

/// Writes the numbers of a fault from the start.
fn put_fault(fault: SheetFault, into: &mut [u64])
    ensures after { into.new ≡ (put_numbers (room_at into.old 0) (fault_list fault)).held }
{
    let mut room = Room::new(into);
    fault.put_all(&mut room);
}

/// How many numbers the rows of a sheet have, or -1 for a fault, whose sheet, line, cell and number are then written.
fn answer<R: Numbers + Drop, K: SheetKind<Row = R>>(kind: &K, bytes: &[u8], into: &mut [u64]) -> i64
    ensures count { result ≡ answered (map_ok (λ vs. (put_rows (λ v. R.Numbers.listed (K.SheetKind.row_of (by_place v))) (room_at into.old 0) vs).at) (sheet_rows K.SheetKind.table bytes.now)) }
    ensures numbers { IfOk (sheet_rows K.SheetKind.table bytes.now) (λ vs. into.new ≡ (put_rows (λ v. R.Numbers.listed (K.SheetKind.row_of (by_place v))) (room_at into.old 0) vs).held) }
    ensures fault { IfErr (sheet_rows K.SheetKind.table bytes.now) (λ f. Tells f into.new (length into.old)) }
{
    match read_into(kind, bytes, into) {
        Ok(count) => held(count),
        Err(fault) => {
            put_fault(fault, into);
            -1
        }
    }
}

// Three calls, since the C interface has no kind of sheet as a parameter.

/// The numbers of the rows of a sheet of members, as far as there is room, or its first fault.
#[unsafe(no_mangle)]
pub extern "C" fn niszorgy_host_members(bytes: &[u8], into: &mut [u64]) -> i64
    ensures count { result ≡ answered (map_ok (λ vs. (put_rows three_places (room_at into.old 0) vs).at) (sheet_rows members bytes.now)) }
    ensures numbers { IfOk (sheet_rows members bytes.now) (λ vs. into.new ≡ (put_rows three_places (room_at into.old 0) vs).held) }
    ensures fault { IfErr (sheet_rows members bytes.now) (λ f. Tells f into.new (length into.old)) }
{
    answer(&Members, bytes, into)
}

/// The numbers of the rows of a sheet of the grid, as far as there is room, or its first fault.
#[unsafe(no_mangle)]
pub extern "C" fn niszorgy_host_grid(bytes: &[u8], into: &mut [u64]) -> i64
    ensures count { result ≡ answered (map_ok (λ vs. (put_rows three_places (room_at into.old 0) vs).at) (sheet_rows grid bytes.now)) }
    ensures numbers { IfOk (sheet_rows grid bytes.now) (λ vs. into.new ≡ (put_rows three_places (room_at into.old 0) vs).held) }
    ensures fault { IfErr (sheet_rows grid bytes.now) (λ f. Tells f into.new (length into.old)) }
{
    answer(&Grid, bytes, into)
}

/// The numbers of the rows of a sheet of readings, as far as there is room, or its first fault.
#[unsafe(no_mangle)]
pub extern "C" fn niszorgy_host_readings(bytes: &[u8], into: &mut [u64]) -> i64
    ensures count { result ≡ answered (map_ok (λ vs. (put_rows five_places (room_at into.old 0) vs).at) (sheet_rows readings bytes.now)) }
    ensures numbers { IfOk (sheet_rows readings bytes.now) (λ vs. into.new ≡ (put_rows five_places (room_at into.old 0) vs).held) }
    ensures fault { IfErr (sheet_rows readings bytes.now) (λ f. Tells f into.new (length into.old)) }
{
    answer(&Readings, bytes, into)
}
