// Records, if they are live.
ghost use Rattle.std.specs.Prelude.{◌≡◌, List, ℕ};
ghost use Rattle.numbers.specs.Numbers.{live};
ghost use Rattle.judging.specs.Seen.{path_of, link_of, return_of, EachFits};
ghost use Rattle.history.specs.Known.{only_if};

use judging::{SeenPath, SeenReturn};
use rules::Link;

pub fn live_path(path: Option<SeenPath>, clock: u64) -> Option<SeenPath>
    requires { EachFits path }
    ensures { ((destination : List ℕ)
        → path_of destination result ≡ only_if (λ p. live clock p.expiry) (path_of destination path)) × EachFits result }
{
    path.filter(|path| clock < path.expiry)
}

pub fn live_link(link: Option<Link>, clock: u64) -> Option<Link>
    ensures { link_of result ≡ only_if (λ l. live clock l.expiry) (link_of link) }
{
    link.filter(|link| clock < link.expiry)
}

pub fn live_return(back: Option<SeenReturn>, clock: u64) -> Option<SeenReturn>
    ensures { (key : List ℕ) → return_of key result ≡ only_if (λ t. live clock t.expiry) (return_of key back) }
{
    back.filter(|back| clock < back.expiry)
}
