// What is kept of a cached sector beside its block.
ghost use Rattle.std.specs.Prelude.{◌≡◌, ◌+◌, ◌≤◌, ◌&&◌, Some, is_some, true, if◌then◌else◌};
ghost use Rattle.clerk_cache.specs.Kept.{changed_state, clean_state, flown_state, is_idle, is_idle_bytes, is_idle_staying, is_state_bytes, is_state_dirty, is_state_fresh, is_state_staying, mark_key, moved_state, one_if, state_mark, wanted_state};
ghost use Rattle.clerk_cache.specs.Keys.{key_at};
ghost use Rattle.clerk_cache.specs.Covers.{cover_key, is_any};
ghost use Rattle.clerk_cache.specs.CoveredMarks.{covered_mark_key};

use crate::covered::Covered;
use crate::covered_mark::CoveredMark;
use cache_definitions::Dirt;
use flush_order::Mark;
use frang_base::{LockId, Sector};
use ordered_map::Edit;

/// The lock that covers a cached sector and, where it is dirty, its dirt; and its flags: it stays wanted until it is clean, and a write
/// of it is in flight. A flag takes no memory. The first counts only of a dirty sector.
#[derive(Clone, Copy, PartialEq, Eq)]
pub(crate) struct SectorState {
    pub(crate) cover: LockId,
    pub(crate) dirt: Option<Dirt>,
    pub(crate) stays: bool,
    pub(crate) flies: bool,
}

/// The edit that takes the dirt from what is kept of a sector, which then no longer stays wanted.
#[derive(Clone, Copy)]
pub(crate) struct Cleaned;

impl Edit<SectorState> for Cleaned {
    ghost edited = { λ edit state. clean_state state };

    fn edit(&self, state: &mut SectorState) {
        state.dirt = None;
        state.stays = false;
    }
}

/// The edit that makes a sector dirty under a lock. Its flags stay.
#[derive(Clone, Copy)]
pub(crate) struct Changed {
    pub(crate) cover: LockId,
    pub(crate) dirt: Dirt,
}

impl Edit<SectorState> for Changed {
    ghost edited = { λ edit state. changed_state edit.cover edit.dirt state };

    fn edit(&self, state: &mut SectorState) {
        state.stays = is_staying(*state);
        state.cover = self.cover;
        state.dirt = Some(self.dirt);
    }
}

/// The edit that puts a sector under another lock.
#[derive(Clone, Copy)]
pub(crate) struct Moved {
    pub(crate) cover: LockId,
}

impl Edit<SectorState> for Moved {
    ghost edited = { λ edit state. moved_state edit.cover state };

    fn edit(&self, state: &mut SectorState) {
        state.cover = self.cover;
    }
}

/// The edit after which a sector stays wanted, where it is dirty.
#[derive(Clone, Copy)]
pub(crate) struct Wanted;

impl Edit<SectorState> for Wanted {
    ghost edited = { λ edit state. wanted_state state };

    fn edit(&self, state: &mut SectorState) {
        state.stays = true;
    }
}

/// The edit that says whether a write of a sector is in flight.
#[derive(Clone, Copy)]
pub(crate) struct Flown {
    pub(crate) flies: bool,
}

impl Edit<SectorState> for Flown {
    ghost edited = { λ edit state. flown_state edit.flies state };

    fn edit(&self, state: &mut SectorState) {
        state.flies = self.flies;
    }
}

/// The sector is dirty, and stays wanted.
pub(crate) fn is_staying(state: SectorState) -> bool
    ensures { result ≡ is_state_staying state }
{
    state.dirt.is_some() && state.stays
}

// The sector is one of dirty file bytes.
fn is_bytes(state: SectorState) -> bool
    ensures { result ≡ is_state_bytes state }
{
    match state.dirt {
        Some(dirt) => dirt.is_bytes,
        None => false,
    }
}

// One where there is a sector and it is one of dirty file bytes, else none.
fn bytes_in(state: Option<SectorState>) -> usize
    ensures { result ≡ one_if is_state_bytes state }
{
    match state {
        Some(state) if is_bytes(state) => 1,
        _ => 0,
    }
}

/// How many sectors of dirty file bytes there are, where one state has taken the place of another.
pub(crate) fn recount(count: usize, old: Option<SectorState>, new: Option<SectorState>) -> usize
    requires old { one_if is_state_bytes old ≤ count }
    requires fits { count + one_if is_state_bytes new ≤ one_if is_state_bytes old + usize.MAX }
    ensures { result + one_if is_state_bytes old ≡ count + one_if is_state_bytes new }
{
    count - bytes_in(old) + bytes_in(new)
}

/// Where a sector lies in each of the orders in which it is kept.
#[derive(Clone, Copy)]
pub(crate) struct SectorKeys {
    pub(crate) mark: Option<Mark>,
    pub(crate) idle: Option<Mark>,
    pub(crate) bytes: Option<Mark>,
    pub(crate) staying: Option<Mark>,
    pub(crate) fresh: Option<Mark>,
    pub(crate) cover: Option<Covered>,
    pub(crate) dirty: Option<Covered>,
    pub(crate) waiting: Option<CoveredMark>,
}

// The mark of a sector, where it is dirty.
fn mark_of(sector: Sector, state: SectorState) -> Option<Mark>
    ensures { result ≡ state_mark (sector.0, state) }
{
    match state.dirt {
        Some(dirt) => Some(Mark {
            sector,
            mark: dirt.mark,
        }),
        None => None,
    }
}

// The mark, where the sector passes.
fn mark_if(mark: Option<Mark>, passes: bool) -> Option<Mark>
    ensures { result ≡ (if passes then mark else None) }
{
    if passes { mark } else { None }
}

// The mark of a dirty sector of which no write is in flight.
fn idle_mark_of(sector: Sector, state: SectorState) -> Option<Mark>
    ensures { result ≡ mark_key is_idle (sector.0, state) }
{
    mark_if(mark_of(sector, state), !state.flies)
}

// The same, of file bytes.
fn bytes_mark_of(sector: Sector, state: SectorState) -> Option<Mark>
    ensures { result ≡ mark_key is_idle_bytes (sector.0, state) }
{
    mark_if(mark_of(sector, state), !state.flies && is_bytes(state))
}

// The same, of a sector that stays wanted.
fn staying_mark_of(sector: Sector, state: SectorState) -> Option<Mark>
    ensures { result ≡ mark_key is_idle_staying (sector.0, state) }
{
    mark_if(mark_of(sector, state), !state.flies && is_staying(state))
}

// The mark of a dirty sector that doesn't stay wanted.
fn fresh_mark_of(sector: Sector, state: SectorState) -> Option<Mark>
    ensures { result ≡ mark_key is_state_fresh (sector.0, state) }
{
    mark_if(mark_of(sector, state), !state.stays)
}

// The cover of a sector with its mark, where it is dirty and no write of it is in flight.
fn covered_mark_of(sector: Sector, state: SectorState) -> Option<CoveredMark>
    ensures { result ≡ covered_mark_key is_idle (sector.0, state) }
{
    match idle_mark_of(sector, state) {
        Some(mark) => Some(CoveredMark {
            cover: state.cover,
            mark,
        }),
        None => None,
    }
}

// The cover of a sector, where it is dirty.
fn dirty_cover_of(sector: Sector, state: SectorState) -> Option<Covered>
    ensures { result ≡ cover_key is_state_dirty (sector.0, state) }
{
    match state.dirt {
        Some(_) => Some(cover_of(sector, state)),
        None => None,
    }
}

// The cover of a sector.
fn cover_of(sector: Sector, state: SectorState) -> Covered
    ensures { Some result ≡ cover_key is_any (sector.0, state) }
{
    Covered {
        cover: state.cover,
        sector: sector.0,
    }
}

/// Where a sector of this state, or of which nothing is kept, lies.
pub(crate) fn keys_of(sector: Sector, state: Option<SectorState>) -> SectorKeys
    ensures mark { result.mark ≡ key_at state_mark sector.0 state }
    ensures idle { result.idle ≡ key_at (mark_key is_idle) sector.0 state }
    ensures bytes { result.bytes ≡ key_at (mark_key is_idle_bytes) sector.0 state }
    ensures staying { result.staying ≡ key_at (mark_key is_idle_staying) sector.0 state }
    ensures fresh { result.fresh ≡ key_at (mark_key is_state_fresh) sector.0 state }
    ensures cover { result.cover ≡ key_at (cover_key is_any) sector.0 state }
    ensures dirty { result.dirty ≡ key_at (cover_key is_state_dirty) sector.0 state }
    ensures waiting { result.waiting ≡ key_at (covered_mark_key is_idle) sector.0 state }
{
    match state {
        Some(state) => SectorKeys {
            mark: mark_of(sector, state),
            idle: idle_mark_of(sector, state),
            bytes: bytes_mark_of(sector, state),
            staying: staying_mark_of(sector, state),
            fresh: fresh_mark_of(sector, state),
            cover: Some(cover_of(sector, state)),
            dirty: dirty_cover_of(sector, state),
            waiting: covered_mark_of(sector, state),
        },
        None => SectorKeys {
            mark: None,
            idle: None,
            bytes: None,
            staying: None,
            fresh: None,
            cover: None,
            dirty: None,
            waiting: None,
        },
    }
}
