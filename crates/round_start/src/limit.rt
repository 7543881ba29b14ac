// The limit of the search (free_path.rs 316-320).
ghost use Rattle.std.specs.Prelude.{◌≡◌};
ghost use Rattle.free_path.specs.SearchLimit.{offset_cancel_of};

use disp_structs::Metres;
use free_path::search_limit;

pub fn offset_cancel(local: bool, lowest: Metres, offset: Metres, search: Metres) -> Metres
    ensures { result ≡ offset_cancel_of local lowest offset search }
{
    if local {
        Metres(search_limit::maximum(lowest.0, offset.0 - search.0))
    } else {
        lowest
    }
}
