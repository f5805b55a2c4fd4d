// Many changes of a cache as one.
ghost use Rattle.cache_laws.specs.Steps.{ChangesLieSectorBySector, CoversMoveSectorBySector};

/// Sectors that come under other locks one after another come each under the lock that moves it last.
pub fn covers_move_sector_by_sector()
    ensures moved { CoversMoveSectorBySector }
{}

/// Changes of sectors apart, each laid over its sector under the lock that covers it, are one change of each cached sector.
pub fn changes_lie_sector_by_sector()
    ensures laid { ChangesLieSectorBySector }
{}
