// Laws of parameters and their sector.
ghost use Rattle.std.specs.Prelude.{◌≡◌, List, ℕ, Some, IsTrue};
ghost use Rattle.disk_definitions.specs.declared.param.Param.{Param};
ghost use Rattle.disk_definitions.specs.Params.{param_bytes, param_fits, param_in, IsParamSector};

/// What was written of parameters reads back, a block is the sector of what it is read as, what a block is the sector of it is read as, and
/// no block is the sector of two.
pub fn what_is_written_reads_back()
    ensures back { (p : Param) → IsTrue (param_fits p) → param_in (param_bytes p) ≡ Some p }
    ensures read { (block : List ℕ) (p : Param) → param_in block ≡ Some p → IsParamSector block p }
    ensures found { (block : List ℕ) (p : Param) → IsParamSector block p → param_in block ≡ Some p }
    ensures once { (block : List ℕ) (p q : Param) → IsParamSector block p → IsParamSector block q → p ≡ q }
{}
