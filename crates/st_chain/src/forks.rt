//! The forks of an image by the addresses of their third jumps.
ghost use Rattle.std.specs.Prelude.{◌≡◌};
ghost use Rattle.st_chain.specs.Forks.{AreRising, fork_from, handle_behind};

use st_base::image::ForkRow;
use st_base::reg::Reg;

/// The first fork whose first jump is at an address or behind it.
fn fork_from(forks: &[ForkRow], first: u32) -> Option<ForkRow>
    requires { AreRising 0 forks.now }
    ensures { result ≡ fork_from forks.now first }
{
    forks
        .get(forks.partition_point(|fork| fork.at < first))
        .copied()
}

/// The register of the handle of the fork whose third jump has an address.
pub fn handle_of(forks: &[ForkRow], pc: u32) -> Option<Reg>
    requires { AreRising 0 forks.now }
    ensures { result ≡ handle_behind forks.now pc }
{
    if pc < 8 {
        return None;
    }
    match fork_from(forks, pc - 8) {
        Some(fork) if fork.at == pc - 8 => Some(fork.handle),
        _ => None,
    }
}
