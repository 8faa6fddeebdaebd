// Lists that keep no room beyond their elements.

ghost use Rattle.std.specs.Prelude.{◌≡◌, ◌<◌, ◌^◌, vec_len};

use session_values::Listed;

/// The list of these elements. A tree of many short lists would else hold several times its size.
pub(crate) fn list<T>(items: Vec<T>) -> Listed<T>
    requires { vec_len items < 2 ^ 32 }
    ensures { result ≡ items.items }
{
    let mut items = items;
    items.shrink_to_fit();
    Listed::from_vec(items)
}
