//! Boards in memory that are opened and changed, cut at each moment or failing at each call.

ghost use Rattle.std.specs.Prelude.{◌≡◌, ◌≤◌, ◌-◌, ◌%◌, length, OnOk};
ghost use Rattle.board.specs.Held.{IsLive};
ghost use Rattle.cuts.specs.Orderly.{IsLawfulTable};
ghost use Rattle.gpt_copy.specs.Copy.{FitsDisk};
ghost use Rattle.storage_model.specs.Entries.{IsSane};

use super::*;
use bd_dev::{Area, Plant};
use bd_mode::Mode;
use bd_sim::{Pick, SimPlant};
use bd_text::Guid;
use gpt_copy::{Entry, Table, Which, write_copy};
use gpt_table::{add, delete};
use soundness::{Boots, boots, judge};
use std::alloc::Global;
use std::test::Fail;

/// An unused entry.
const UNUSED: Entry = Entry {
    kind: Guid { bytes: [0; 16] },
    guid: Guid { bytes: [0; 16] },
    first: 0,
    last: 0,
    attributes: 0,
    name: [0; 36],
};

/// ONIE's boot type, 7412F7D5-A156-4B13-81DC-867174929325, as EFI keeps it.
const ONIE_TYPE: Guid = Guid {
    bytes: [
        0xD5, 0xF7, 0x12, 0x74, 0x56, 0xA1, 0x13, 0x4B, 0x81, 0xDC, 0x86, 0x71, 0x74, 0x92, 0x93,
        0x25,
    ],
};

/// A table with ONIE in sectors 40 to 50 and, where there is a second entry, a NOS in sectors 51 and 52.
fn table(sectors: u64, has_nos: bool) -> Table
    requires { 97 ≤ sectors }
    ensures { FitsDisk (sectors - 1) result }
{
    let mut entries = [UNUSED; 128];
    entries[0] = Entry {
        kind: ONIE_TYPE,
        guid: Guid { bytes: [1; 16] },
        first: 40,
        last: 50,
        ..UNUSED
    };
    if has_nos {
        entries[1] = Entry {
            kind: Guid { bytes: [7; 16] },
            guid: Guid { bytes: [2; 16] },
            first: 51,
            last: 52,
            ..UNUSED
        };
    }
    Table {
        disk: Guid { bytes: [9; 16] },
        first_usable: 34,
        last_usable: sectors - 34,
        entries,
    }
}

/// Puts bytes at an offset, where there is room.
fn fill(area: &mut [u8], at: usize, bytes: &[u8]) {
    if at <= area.len() && bytes.len() <= area.len() - at {
        area[at..at + bytes.len()].copy_from_slice(bytes);
    }
}

/// A disk of so many sectors with ONIE's image of one byte, whose copies of the table have a NOS or not.
fn disk(alloc: Global, sectors: usize, primary: bool, backup: bool) -> Result<Vec<u8>, Fail>
    requires least { 97 ≤ sectors }
    requires most { sectors ≤ 131072 }
{
    let last = sectors as u64 - 1;
    let mut disk = [0; 512].as_slice().repeat(alloc, sectors)?;
    let mut copy = [0; 16896];
    let first = table(sectors as u64, primary);
    write_copy(&first, Which::Primary, last, &mut copy);
    fill(&mut disk, 512, &copy);
    let second = table(sectors as u64, backup);
    write_copy(&second, Which::Backup, last, &mut copy);
    fill(&mut disk, 512 * (sectors - 33), &copy);
    fill(&mut disk, 40 * 512, b"ONIEIMG1\x01\0\0\0\x01");
    Ok(disk)
}

/// A flash whose slot 0 asks for mode install, as number 1.
fn flash(alloc: Global) -> Result<Vec<u8>, Fail> {
    let mut flash = [0; 512].as_slice().repeat(alloc, 34)?;
    fill(&mut flash, 0, b"ONIEOPEN");
    fill(&mut flash, 512, b"\x01\0\0\0\0\0\0\0\x19\0\0\0");
    fill(&mut flash, 524, b"onie_boot_reason=install\0");
    Ok(flash)
}

/// A plant over these bytes, whose calls of these numbers fail.
fn plant(alloc: Global, disk: &[u8], flash: &[u8], fails: &[u64]) -> Result<SimPlant, Fail> {
    if disk.len() > 1 << 30
        || disk.len() % 512 != 0
        || flash.len() > 1 << 20
        || flash.len() % 512 != 0
    {
        return Err(Fail::new("a size"));
    }
    Ok(SimPlant::new(alloc, disk, flash, fails)?)
}

/// A plant with a sound board of 128 sectors.
fn sound(alloc: Global, fails: &[u64]) -> Result<SimPlant, Fail> {
    plant(
        alloc,
        &disk(alloc, 128, false, false)?,
        &flash(alloc)?,
        fails,
    )
}

#[test]
fn a_put_keeps_to_the_disk_and_off_the_table(rt: HostRuntime) -> Result<(), Fail> {
    let alloc = rt.alloc();
    let rows: [(u64, bool, Result<(), BoardFault>); 10] = [
        (33, false, Err(BoardFault::OnTable)),
        (131_039, false, Err(BoardFault::OnTable)),
        (131_071, true, Err(BoardFault::Range)),
        (131_072, false, Err(BoardFault::Range)),
        (u64::MAX, false, Err(BoardFault::Range)),
        (1, false, Err(BoardFault::OnTable)),
        (0, true, Err(BoardFault::OnTable)),
        (131_038, true, Err(BoardFault::OnTable)),
        (0, false, Ok(())),
        (131_037, true, Ok(())),
    ];
    let mut plant = plant(
        alloc,
        &disk(alloc, 131_072, false, false)?,
        &flash(alloc)?,
        &[],
    )?;
    for (lba, two, answer) in rows {
        let mut board = match Board::open(alloc, &mut plant) {
            Ok(board) => board,
            Err(_) => return Err(Fail::new("not opened")),
        };
        let result = if two {
            board.put(lba, &[5; 1024])
        } else {
            board.put(lba, &[5; 512])
        };
        assert_eq!(rt; result, answer, "{lba}");
        let noted = board.journal().len();
        assert_eq!(rt; noted, if answer == Ok(()) { 1 } else { 0 }, "{lba}");
    }
    Ok(())
}

/// A NOS in sectors 51 and 52.
const NOS: Entry = Entry {
    kind: Guid { bytes: [7; 16] },
    guid: Guid { bytes: [2; 16] },
    first: 51,
    last: 52,
    ..UNUSED
};

/// A table with the NOS as its second entry, or as it was where that can't be.
fn with_nos(table: &Table) -> Table
    requires { IsSane table.now }
    ensures { IsLawfulTable table.now result }
{
    let mut changed = *table;
    match add(&mut changed, 2, NOS) {
        Ok(_) => changed,
        Err(_) => *table,
    }
}

/// A table without its second entry, or as it was where that isn't used.
fn without_nos(table: &Table) -> Table
    requires { IsSane table.now }
    ensures { IsLawfulTable table.now result }
{
    let mut changed = *table;
    match delete(&mut changed, 2) {
        Ok(()) => changed,
        Err(_) => *table,
    }
}

/// A change of a board.
#[derive(Clone, Copy)]
enum Change<'a> {
    /// A put of one sector of bytes of this value.
    PutOne(u64, u8),
    /// The same of two sectors.
    PutTwo(u64, u8),
    Sync,
    /// The table with the NOS as its second entry.
    AddNos,
    /// The table without its second entry.
    DropNos,
    Set(&'a [u8], &'a [u8]),
    Unset(&'a [u8]),
}

/// Makes a change. It promises no more than that the board then takes the next one: what a change does is what the tests
/// look at.
fn make<P: Plant>(board: &mut Board<P>, change: Change) -> Result<(), BoardFault>
    requires live { IsLive (P.view board.old.plant.now) board.old.held }
    ensures same_reference { board.new.plant.ghost_name ≡ board.old.plant.ghost_name }
    ensures live { OnOk result (IsLive (P.view board.new.plant.now) board.new.held) }
{
    match change {
        Change::PutOne(lba, byte) => board.put(lba, &[byte; 512]),
        Change::PutTwo(lba, byte) => board.put(lba, &[byte; 1024]),
        Change::Sync => board.sync(),
        Change::AddNos => {
            let table = with_nos(board.table());
            board.set_table(&table)
        }
        Change::DropNos => {
            let table = without_nos(board.table());
            board.set_table(&table)
        }
        Change::Set(name, value) => board.set_var(name, value),
        Change::Unset(name) => board.unset_var(name),
    }
}

/// Makes eight changes of a board, one after the other, up to the first that fails.
fn eight_changes<P: Plant>(board: &mut Board<P>) -> Result<(), BoardFault>
    requires live { IsLive (P.view board.old.plant.now) board.old.held }
{
    make(board, Change::PutOne(51, 0xA1))?;
    make(board, Change::Sync)?;
    make(board, Change::AddNos)?;
    make(board, Change::PutTwo(52, 0xB2))?;
    make(board, Change::PutOne(0, 0xC3))?;
    make(board, Change::DropNos)?;
    make(board, Change::PutOne(51, 0xD4))?;
    make(board, Change::Sync)
}

/// Opens the board and makes these changes. Answers how many effects were noted, and whether all were done.
fn make_eight(alloc: Global, plant: &mut SimPlant) -> Result<(usize, bool), OpenFault> {
    let mut board = Board::open(alloc, plant)?;
    let all = eight_changes(&mut board).is_ok();
    Ok((board.journal().len(), all))
}

/// What a board reads after so many of these changes: whether it has the NOS, and the first bytes of sectors 51, 52
/// and 0.
fn state(effects: usize) -> (bool, u8, u8, u8) {
    let has_nos = 3 <= effects && effects < 6;
    let first = match effects {
        0 => 0,
        1..=6 => 0xA1,
        _ => 0xD4,
    };
    let second = if 4 <= effects { 0xB2 } else { 0 };
    let zero = if 5 <= effects { 0xC3 } else { 0 };
    (has_nos, first, second, zero)
}

/// The first byte of a sector, as a board reads it.
fn first_byte(plant: &mut SimPlant, lba: u64) -> Result<u8, Fail> {
    let mut sector = [0; 512];
    if plant.sectors(Area::Disk) <= lba {
        return Err(Fail::new("a sector"));
    }
    plant.read(Area::Disk, lba, &mut sector)?;
    Ok(sector[0])
}

/// What the board of a plant reads, or None where it is not sound.
fn reads(alloc: Global, plant: &mut SimPlant) -> Result<Option<(bool, u8, u8, u8)>, Fail> {
    let has_nos = match Board::open(alloc, plant) {
        Ok(board) => board.table().entries[1] != UNUSED,
        Err(_) => return Ok(None),
    };
    Ok(Some((
        has_nos,
        first_byte(plant, 51)?,
        first_byte(plant, 52)?,
        first_byte(plant, 0)?,
    )))
}

#[test]
fn all_changes_are_done_and_noted(rt: HostRuntime) -> Result<(), Fail> {
    let mut plant = sound(rt.alloc(), &[])?;
    assert_eq!(rt; make_eight(rt.alloc(), &mut plant), Ok((8, true)));
    assert_eq!(rt; reads(rt.alloc(), &mut plant)?, Some(state(8)));
    Ok(())
}

/// Whether the board that a plant holds after one of its calls failed in the changes is that after the effects that
/// were done, or after the one that ran too.
fn holds(alloc: Global, plant: &mut SimPlant, noted: usize) -> Result<bool, Fail> {
    let found = reads(alloc, plant)?;
    Ok(found == Some(state(noted)) || (1 <= noted && found == Some(state(noted - 1))))
}

#[test]
fn each_call_fails_in_turn(rt: HostRuntime) -> Result<(), Fail> {
    let mut done = sound(rt.alloc(), &[])?;
    assert_eq!(rt; make_eight(rt.alloc(), &mut done), Ok((8, true)));
    for number in 1..=done.calls() {
        let mut plant = sound(rt.alloc(), &[number])?;
        match make_eight(rt.alloc(), &mut plant) {
            Ok((noted, all)) => {
                assert!(rt; !all, "{number}");
                assert!(rt; holds(rt.alloc(), &mut plant, noted)?, "{number}");
            }
            Err(fault) => {
                assert_eq!(rt; fault, OpenFault::Fault, "{number}");
                assert!(rt; holds(rt.alloc(), &mut plant, 0)?, "{number}");
            }
        }
    }
    Ok(())
}

#[test]
fn the_lesser_copy_is_repaired(rt: HostRuntime) -> Result<(), Fail> {
    let alloc = rt.alloc();
    let cases: [(bool, bool, bool, bool); 3] = [
        (false, true, false, false),
        (true, false, false, true),
        (true, false, true, false),
    ];
    for (primary, backup, torn, has_nos) in cases {
        let mut bytes = disk(alloc, 128, primary, backup)?;
        if torn {
            fill(&mut bytes, 600, b"torn");
            fill(&mut bytes, 512, b"torn");
        }
        let mut plant = plant(alloc, &bytes, &flash(alloc)?, &[])?;
        let state = reads(alloc, &mut plant)?;
        assert_eq!(rt; state, Some((has_nos, 0, 0, 0)), "{primary} {torn}");
        let calls = plant.calls();
        assert_eq!(rt; reads(alloc, &mut plant)?, state, "{primary} {torn}");
        // The second opening writes nothing: it takes a write and a sync less, and reads no copy twice.
        let again = plant.calls().saturating_sub(calls);
        let less = if torn { 3 } else { 2 };
        assert_eq!(rt; again.saturating_add(less), calls, "{primary} {torn}");
    }
    Ok(())
}

/// Why a board is not sound.
fn unsound(alloc: Global, disk: &[u8], flash: &[u8]) -> Result<Option<OpenFault>, Fail> {
    let mut plant = plant(alloc, disk, flash, &[])?;
    match Board::open(alloc, &mut plant) {
        Ok(_) => Ok(None),
        Err(fault) => Ok(Some(fault)),
    }
}

#[test]
fn a_board_that_is_not_sound_is_not_opened(rt: HostRuntime) -> Result<(), Fail> {
    let alloc = rt.alloc();
    let good = disk(alloc, 128, false, false)?;
    let flash = flash(alloc)?;
    assert_eq!(rt; unsound(alloc, &good, &flash)?, None);
    let none = OpenFault::NotSound(SoundKind::NoTable);
    assert_eq!(rt;
        unsound(alloc, &good[..good.len().min(67 * 512)], &flash)?,
        Some(none)
    );
    let no_vars = OpenFault::NotSound(SoundKind::NoVars);
    assert_eq!(rt;
        unsound(alloc, &good, &flash[..flash.len().min(33 * 512)])?,
        Some(no_vars)
    );
    let mut other = disk(alloc, 128, false, false)?;
    fill(&mut other, 40 * 512, b"onieimg1");
    let no_image = OpenFault::NotSound(SoundKind::NoImage);
    assert_eq!(rt; unsound(alloc, &other, &flash)?, Some(no_image));
    assert_eq!(rt;
        unsound(alloc, &other, &flash[..flash.len().min(33 * 512)])?,
        Some(no_image)
    );
    Ok(())
}

/// The sectors of the disk that may be torn within a call, each left in this way.
fn torn(
    alloc: Global,
    plant: &SimPlant,
    moment: u64,
    way: Pick,
) -> Result<Vec<(Area, u64, Pick)>, Fail> {
    let mut picks = Vec::new(alloc);
    for lba in 0..plant.sectors(Area::Disk) {
        if plant.allows(moment, &[(Area::Disk, lba, way)]) {
            picks.push((Area::Disk, lba, way))?;
        }
    }
    Ok(picks)
}

/// Whether what a power cut within a call leaves is a sound board, with the table and the sectors before or after one
/// of the effects.
fn survives(alloc: Global, plant: &SimPlant, moment: u64, way: Pick) -> Result<bool, Fail> {
    let picks = torn(alloc, plant, moment, way)?;
    if !plant.allows(moment, picks.as_slice()) {
        return Ok(false);
    }
    let mut left = plant.image(moment, picks.as_slice())?;
    let Some((has_nos, _, _, _)) = reads(alloc, &mut left)? else {
        return Ok(false);
    };
    let first = first_byte(&mut left, 51)?;
    for effects in 0..9 {
        let (table, byte, _, _) = state(effects);
        if has_nos == table && (first == byte || way == Pick::Torn(255) || way == Pick::Old) {
            return Ok(true);
        }
    }
    Ok(false)
}

#[test]
fn each_power_cut_leaves_a_sound_board(rt: HostRuntime) -> Result<(), Fail> {
    let alloc = rt.alloc();
    let mut plant = sound(alloc, &[])?;
    assert_eq!(rt; make_eight(alloc, &mut plant), Ok((8, true)));
    for moment in 0..=plant.calls() {
        for way in [Pick::Old, Pick::New, Pick::Torn(0), Pick::Torn(255)] {
            assert!(rt; survives(alloc, &plant, moment, way)?, "{moment}");
        }
    }
    Ok(())
}

/// Sets and unsets variables, the last of which is not there.
fn three_changes<P: Plant>(board: &mut Board<P>) -> Result<(), BoardFault>
    requires live { IsLive (P.view board.old.plant.now) board.old.held }
    ensures same_reference { board.new.plant.ghost_name ≡ board.old.plant.ghost_name }
    ensures live { OnOk result (IsLive (P.view board.new.plant.now) board.new.held) }
{
    make(board, Change::Set(b"nos_bootcmd", b"boot x"))?;
    make(board, Change::Unset(b"onie_boot_reason"))?;
    make(board, Change::Unset(b"absent"))?;
    Ok(())
}

/// Opens the board and makes these changes. Answers how many effects were noted, with the text at the end.
fn make_three(alloc: Global, plant: &mut SimPlant) -> Result<(usize, Vec<u8>), Fail> {
    let mut board = match Board::open(alloc, plant) {
        Ok(board) => board,
        Err(_) => return Err(Fail::new("not opened")),
    };
    match three_changes(&mut board) {
        Ok(()) => Ok((
            board.journal().len(),
            Vec::from_slice(alloc, board.vars().text())?,
        )),
        Err(_) => Err(Fail::new("not changed")),
    }
}

#[test]
fn variables_are_set_and_unset(rt: HostRuntime) -> Result<(), Fail> {
    let mut plant = sound(rt.alloc(), &[])?;
    let (effects, text) = make_three(rt.alloc(), &mut plant)?;
    assert_eq!(rt; effects, 2);
    assert!(rt; text.as_slice() == b"nos_bootcmd=boot x\0".as_slice());
    assert!(rt; reads(rt.alloc(), &mut plant)?.is_some());
    Ok(())
}

/// Installs a NOS on a board, which it then boots, and takes it off again: ten effects of all kinds, in an orderly run, up
/// to the first that fails.
fn ten_changes<P: Plant>(board: &mut Board<P>) -> Result<(), BoardFault>
    requires live { IsLive (P.view board.old.plant.now) board.old.held }
{
    make(board, Change::AddNos)?;
    make(board, Change::PutTwo(51, 0xA1))?;
    make(board, Change::Sync)?;
    make(
        board,
        Change::Set(b"nos_bootcmd", b"boot 02020202-0202-0202-0202-020202020202"),
    )?;
    make(board, Change::Unset(b"onie_boot_reason"))?;
    make(board, Change::PutOne(60, 0xB2))?;
    make(board, Change::Sync)?;
    make(board, Change::Set(b"onie_boot_reason", b"uninstall"))?;
    make(board, Change::Unset(b"nos_bootcmd"))?;
    make(board, Change::DropNos)
}

/// Opens a board and makes these changes. Answers how many effects were noted.
fn install(alloc: Global, plant: &mut SimPlant) -> Result<usize, OpenFault> {
    let mut board = Board::open(alloc, plant)?;
    let _ended = ten_changes(&mut board);
    Ok(board.journal().len())
}

/// What the board boots after so many of these effects, and whether it has the NOS's partition.
fn stage(effects: usize) -> (Boots, bool) {
    let boots = match effects {
        0..=4 => Boots::Onie(Mode::Install),
        5..=7 => Boots::Nos(NOS.guid),
        _ => Boots::Onie(Mode::Uninstall),
    };
    (boots, 1 <= effects && effects < 10)
}

/// Whether the sectors of the NOS's partition hold what was written to them.
fn is_whole(plant: &mut SimPlant) -> Result<bool, Fail> {
    let mut sectors = [0; 1024];
    if plant.sectors(Area::Disk) < 53 {
        return Ok(false);
    }
    plant.read(Area::Disk, 51, &mut sectors)?;
    Ok(sectors == [0xA1; 1024])
}

/// Whether a plant holds a sound board as after so many effects, whose NOS is whole where it boots it.
fn is_at(plant: &mut SimPlant, effects: usize) -> Result<bool, Fail> {
    let Ok(sound) = judge(plant) else {
        return Ok(false);
    };
    let (what, has_nos) = stage(effects);
    let found = boots(&sound.table, &sound.vars);
    let same = found == what && (sound.table.entries[1] != UNUSED) == has_nos;
    Ok(same && (found != Boots::Nos(NOS.guid) || is_whole(plant)?))
}

/// Whether a plant holds such a board after one of these effects.
fn is_at_some(plant: &mut SimPlant) -> Result<bool, Fail> {
    for effects in 0..11 {
        if is_at(plant, effects)? {
            return Ok(true);
        }
    }
    Ok(false)
}

#[test]
fn ten_effects_install_a_nos_and_take_it_off(rt: HostRuntime) -> Result<(), Fail> {
    let mut plant = sound(rt.alloc(), &[])?;
    assert!(rt; is_at(&mut plant, 0)?);
    assert_eq!(rt; install(rt.alloc(), &mut plant), Ok(10));
    assert!(rt; is_at(&mut plant, 10)?);
    Ok(())
}

#[test]
fn each_call_of_an_installation_fails_in_turn(rt: HostRuntime) -> Result<(), Fail> {
    let mut done = sound(rt.alloc(), &[])?;
    assert_eq!(rt; install(rt.alloc(), &mut done), Ok(10));
    for number in 1..=done.calls() {
        let mut plant = sound(rt.alloc(), &[number])?;
        let noted = match install(rt.alloc(), &mut plant) {
            Ok(noted) => noted,
            Err(_) => 0,
        };
        let before = noted.saturating_sub(1);
        assert!(rt;
            is_at(&mut plant, noted)? || is_at(&mut plant, before)?,
            "{number}"
        );
    }
    Ok(())
}

/// The sectors that may be torn within a call, each left in this way.
fn torn_everywhere(
    alloc: Global,
    plant: &SimPlant,
    moment: u64,
    way: Pick,
) -> Result<Vec<(Area, u64, Pick)>, Fail> {
    let mut picks = torn(alloc, plant, moment, way)?;
    for lba in 0..plant.sectors(Area::Flash) {
        if plant.allows(moment, &[(Area::Flash, lba, way)]) {
            picks.push((Area::Flash, lba, way))?;
        }
    }
    Ok(picks)
}

#[test]
fn each_power_cut_leaves_onie_or_a_whole_nos(rt: HostRuntime) -> Result<(), Fail> {
    let alloc = rt.alloc();
    let mut plant = sound(alloc, &[])?;
    assert_eq!(rt; install(alloc, &mut plant), Ok(10));
    for moment in 0..=plant.calls() {
        for way in [Pick::Old, Pick::New, Pick::Torn(0), Pick::Torn(255)] {
            let picks = torn_everywhere(alloc, &plant, moment, way)?;
            assert!(rt; plant.allows(moment, picks.as_slice()), "{moment}");
            let mut left = plant.image(moment, picks.as_slice())?;
            assert!(rt; is_at_some(&mut left)?, "{moment}");
        }
    }
    Ok(())
}

/// Opens the board, and makes one change of it, or none. Answers whether that was done.
fn change_once(alloc: Global, plant: &mut SimPlant, change: usize) -> Result<bool, OpenFault> {
    let mut board = Board::open(alloc, plant)?;
    let table = with_nos(board.table());
    let answer = match change {
        0 => Ok(()),
        1 => board.put(51, &[0xA1; 8192]),
        2 => board.sync(),
        _ => board.set_table(&table),
    };
    Ok(answer == Ok(()))
}

/// How many calls of the plant the opening and one change take. The put is of 16 sectors.
fn calls_of(alloc: Global, change: usize) -> Result<u64, Fail> {
    let mut plant = sound(alloc, &[])?;
    if change_once(alloc, &mut plant, change) != Ok(true) {
        return Err(Fail::new("not changed"));
    }
    Ok(plant.calls())
}

/// A put is one write, a sync one sync, and a change of the table two writes and two syncs.
#[test]
fn calls_are_counted(rt: HostRuntime) -> Result<(), Fail> {
    let opening = calls_of(rt.alloc(), 0)?;
    for (change, more) in [(1, 1), (2, 1), (3, 4)] {
        let calls = calls_of(rt.alloc(), change)?;
        assert_eq!(rt; calls.saturating_sub(opening), more, "{change}");
    }
    Ok(())
}

/// What a power cut within a call leaves, where all sectors that may be torn are left in each of these ways. None where no
/// sector may be torn.
fn left_within(
    alloc: Global,
    plant: &SimPlant,
    moment: u64,
    ways: &[Pick],
) -> Result<Vec<SimPlant>, Fail> {
    let mut images = Vec::new(alloc);
    if plant.calls() < moment || plant.open_sectors(moment)?.len() == 0 {
        return Ok(images);
    }
    let snapshot = plant.snapshot(moment)?;
    for way in ways {
        let mut picks = Vec::new(alloc);
        for (area, lba) in snapshot.open_sectors() {
            picks.push((*area, *lba, *way))?;
        }
        if !snapshot.allows(picks.as_slice()) {
            return Err(Fail::new("no such picks"));
        }
        images.push(snapshot.image(picks.as_slice())?)?;
    }
    Ok(images)
}

/// Whether a board that a power cut left is sound, and reads the same after each power cut within the next opening, which
/// repairs it.
fn is_repaired(alloc: Global, left: &mut SimPlant) -> Result<bool, Fail> {
    let state = reads(alloc, left)?;
    for moment in 0..=left.calls() {
        let mut images = left_within(alloc, left, moment, &[Pick::New, Pick::Torn(255)])?;
        for again in images.iter_mut() {
            if reads(alloc, again)? != state {
                return Ok(false);
            }
        }
    }
    Ok(state.is_some())
}

#[test]
fn a_repair_of_a_cut_replacement_may_be_cut(rt: HostRuntime) -> Result<(), Fail> {
    let alloc = rt.alloc();
    let mut plant = sound(alloc, &[])?;
    assert_eq!(rt; change_once(alloc, &mut plant, 3), Ok(true));
    for moment in 0..=plant.calls() {
        let ways = [Pick::Old, Pick::New, Pick::Torn(0), Pick::Torn(255)];
        let mut images = left_within(alloc, &plant, moment, &ways)?;
        for left in images.iter_mut() {
            assert!(rt; is_repaired(alloc, left)?, "{moment}");
        }
    }
    Ok(())
}
