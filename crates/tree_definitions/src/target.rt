// The target of a symbolic link.
ghost use Rattle.std.specs.Prelude.{◌≡◌, ◌≤◌, length};
ghost use Rattle.frang_base.specs.declared.limits.TheConstants.{TARGET_BYTES_MAX};

use frang_base::Text;
use std::alloc::AllocError;
use std::marker::Model;

/// The target of a symbolic link, seen as the list of its bytes: at most 384.
#[derive(Drop)]
pub struct Target {
    text: Text,
}

impl Model for Target {
    ghost use Rattle.std.specs.Prelude.{List, ℕ, ◌≤◌, length};
    ghost use Rattle.frang_base.specs.declared.limits.TheConstants.{TARGET_BYTES_MAX};

    ghost Value = { List ℕ };

    ghost view = { λ t. t.text };

    ghost invariant = { λ t. length t.text ≤ TARGET_BYTES_MAX };
}

impl Target {
    /// The target of this text.
    pub fn of(text: Text) -> Self
        requires { length text ≤ TARGET_BYTES_MAX }
        ensures { result ≡ text }
    {
        Target { text }
    }

    /// The number of bytes, at most 384.
    pub fn len(&self) -> usize
        ensures len { result ≡ length self.now }
        ensures small { result ≤ TARGET_BYTES_MAX }
    {
        self.text.len()
    }

    /// The bytes of the target.
    pub fn as_slice(&self) -> &[u8]
        ensures { result.now ≡ self.now }
    {
        self.text.as_slice()
    }
}

impl Clone for Target {
    ghost is_clone = { λ a b. a ≡ b };

    fn clone(&self) -> Result<Target, AllocError> {
        Ok(Target {
            text: self.text.clone()?,
        })
    }
}
