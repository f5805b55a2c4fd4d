// The first of some sectors that may be written.
ghost use Rattle.std.specs.Prelude.{◌≡◌};
ghost use Rattle.ordered_map.specs.Chunks.{joined};
ghost use Rattle.server_core.specs.States.{cached_in};
ghost use Rattle.server_writes.specs.Wants.{first_of, is_ready, passes_at, ready_sector};

use frang_base::Sector;
use ordered_map::Chunk;
use server_core::Server;

/// Whether a sector is dirty with a mark that is reached, and no write of it is in flight.
pub(crate) fn is_ready(server: &Server, sector: Sector) -> bool
    ensures { result ≡ passes_at (is_ready server.now.flying server.now.server.ring.reached) server.now.server.cache sector.0 }
{
    let cache = server.cache();
    match cache.mark(sector) {
        Some(mark) => !cache.flies(sector) && mark <= server.reached(),
        None => false,
    }
}

// The sector, where it is.
fn ready_sector(server: &Server, sector: Sector) -> Option<Sector>
    ensures { result ≡ ready_sector (cached_in server.now) server.now.server.ring.reached sector.0 }
{
    if is_ready(server, sector) {
        Some(sector)
    } else {
        None
    }
}

/// The first of these sectors that is dirty with a mark that is reached, and of which no write is in flight.
pub(crate) fn first_ready(server: &Server, sectors: &[Sector]) -> Option<Sector>
    ensures { result ≡ first_of (λ sector. ready_sector (cached_in server.now) server.now.server.ring.reached sector.0) sectors.now }
{
    for sector in sectors {
        if let Some(found) = ready_sector(server, *sector) {
            return Some(found);
        }
    }
    None
}

// The same of keys.
fn first_ready_key(server: &Server, piece: &[(u64, ())]) -> Option<Sector>
    ensures { result ≡ first_of (λ key. ready_sector (cached_in server.now) server.now.server.ring.reached key.0) piece.now }
{
    for key in piece {
        if let Some(found) = ready_sector(server, Sector(key.0)) {
            return Some(found);
        }
    }
    None
}

// The same of pieces that follow one another.
fn first_ready_piece(server: &Server, pieces: &[Chunk<u64, ()>]) -> Option<Sector>
    ensures { result ≡ first_of (λ key. ready_sector (cached_in server.now) server.now.server.ring.reached key.0) (joined pieces.now) }
{
    for piece in pieces {
        if let Some(found) = first_ready_key(server, piece.entries()) {
            return Some(found);
        }
    }
    None
}

/// The same of the sectors whose zeros are pending.
pub(crate) fn first_pending(server: &Server) -> Option<Sector>
    ensures { result ≡ first_of (ready_sector (cached_in server.now) server.now.server.ring.reached) server.now.server.pending }
{
    first_ready_piece(server, server.pending())
}
