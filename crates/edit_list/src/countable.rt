//! The rows of a network can be counted in 32 bits, which one look at each shows.
ghost use Rattle.edit_list.specs.Determined.{IsCountable};

use net_model::Network;

/// Counts the rows of the network and the names of its routers, to show that each of these lists
/// counts itself in 32 bits.
pub fn count_rows(net: &Network)
    ensures { IsCountable net.now }
{
    let _ = net.faces.len();
    let _ = net.sessions.len();
    for router in net.routers.slice() {
        let _ = router.names.len();
    }
}
