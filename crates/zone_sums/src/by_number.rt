// A ledger's sums by number: what they have at a zone, at all zones and for the proxies, and zone by zone less
// another's.
ghost use Rattle.std.specs.Prelude.{◌≡◌, ◌≤◌, ◌<◌, pos, get_or};
ghost use Rattle.zone_sums.specs.ByZone.{cells};
ghost use Rattle.zone_sums.specs.inner.Ledger.{Small, amount_at, net_at, total};

// The number is the index: 0 the proxies', else a zone's.
#[derive(Clone, Copy)]
pub struct ZoneSums {
    pub sums: [u64; 33],
    pub ghost small: { Small sums },
}

impl ZoneSums {
    // At the zone of index z.
    fn amount_at(&self, z: usize) -> i64
        requires { z < 32 }
        ensures { result ≡ amount_at self.now.sums z }
    {
        self.sums[z + 1].cast_signed()
    }

    // What one has more than the other there.
    fn net_at(&self, minus: &ZoneSums, z: usize) -> i64
        requires { z < 32 }
        ensures { result ≡ net_at self.now.sums minus.now.sums z }
    {
        self.amount_at(z) - minus.amount_at(z)
    }

    pub fn proxies(&self) -> i64
        ensures { result ≡ pos (get_or self.now.sums 0 0) }
    {
        self.sums[0].cast_signed()
    }

    // At all zones. zones: how many of them the sheet has, since memory is fixed.
    pub fn total(&self, zones: usize) -> i64
        requires { zones ≤ 32 }
        ensures { result ≡ total self.now.sums zones }
    {
        sums::sum_to(zones, |z| self.amount_at(z))
    }

    // What one has more than the other, zone by zone, and zeros behind the sheet's zones: memory is fixed.
    // By index: an iterator would go over the cells and two ledgers at once, which is no plainer.
    pub fn reduced(&self, minus: &ZoneSums, zones: usize) -> [i64; 32]
        requires { zones ≤ 32 }
        ensures { result ≡ cells (net_at self.now.sums minus.now.sums) zones }
    {
        let mut out = [0i64; 32];
        for zone in 0..zones {
            out[zone] = self.net_at(minus, zone);
        }
        out
    }
}
