//! What pools are accepted.
ghost use Rattle.std.specs.Prelude.{◌≡◌, length};
ghost use Rattle.layout.specs.Checks.{check_of};

use refusal::Refusal;

/// Accepts a pool of whole frames, at least four of them.
pub fn check_pool(pool: &[u64]) -> Result<(), Refusal>
    ensures { result ≡ check_of (length pool.now) }
{
    if pool.len() % 512 == 0 && pool.len() >= 4 * 512 {
        Ok(())
    } else {
        Err(Refusal::Pool)
    }
}
