// The stock that is left: what the tool could reach, and what it could not.
ghost use Rattle.std.specs.Prelude.{◌≡◌, ◌+◌, ◌^◌, ◌≤◌, ◌<◌, length};
ghost use Rattle.report.specs.Report.{counted, remaining_of};

#[derive(Clone, Copy)]
pub struct Left {
    pub reach: usize,
    pub unreach: usize,
}

// A cell more, by its bytes of the map and of what could be reached.
fn add_cell(t: Left, stock: u8, reachable: u8) -> Left
    requires { t.reach + t.unreach < 2 ^ 63 }
    ensures { result ≡ counted stock reachable t }
{
    if stock != 1 {
        return t;
    }
    if reachable == 1 {
        return Left {
            reach: t.reach + 1,
            unreach: t.unreach,
        };
    }
    Left {
        reach: t.reach,
        unreach: t.unreach + 1,
    }
}

pub fn remaining(map: &[u8], reachable: &[u8]) -> Left
    requires { length map.now ≤ length reachable.now }
    ensures { result ≡ remaining_of map.now reachable.now }
{
    let mut t = Left {
        reach: 0,
        unreach: 0,
    };
    for (k, &stock) in map.iter().enumerate() {
        t = add_cell(t, stock, reachable[k]);
    }
    t
}
