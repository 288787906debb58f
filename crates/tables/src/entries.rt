// The columns of Table 14 that are read at an address, each in one leaf. An address above a table gives 0.
ghost use Rattle.std.specs.Prelude.{◌≡◌, pos, get_or};
ghost use Rattle.g722.specs.Tables.{qq6, qq5, qq4, qq2, wl, wh};

// The outputs of the inverse quantisers, from address 0 on.
const QQ6: [u16; 31] = [
    0, 17, 54, 91, 130, 170, 211, 254, 300, 347, 396, 447, 501, 558, 618, 682, 750, 822, 899, 982,
    1072, 1170, 1279, 1399, 1535, 1689, 1873, 2088, 2376, 2738, 3101,
];

const QQ5: [u16; 16] = [
    0, 35, 110, 190, 276, 370, 473, 587, 714, 858, 1023, 1219, 1458, 1765, 2195, 2919,
];

const QQ4: [u16; 8] = [0, 150, 323, 530, 786, 1121, 1612, 2557];

const QQ2: [u16; 3] = [0, 202, 926];

// The weights of the log factors.
const WL: [i16; 8] = [-60, -30, 58, 172, 334, 538, 1198, 3042];

const WH: [i16; 3] = [0, -214, 798];

// The output of the 6-bit inverse quantiser at an address.
#[tactic(auto, unfolding(g722::specs::Tables::qq6))]
pub fn qq6_at(k: u8) -> u16
    ensures { result ≡ get_or qq6 k 0 }
{
    QQ6.get(usize::from(k)).copied().unwrap_or(0)
}

// The output of the 5-bit inverse quantiser at an address.
#[tactic(auto, unfolding(g722::specs::Tables::qq5))]
pub fn qq5_at(k: u8) -> u16
    ensures { result ≡ get_or qq5 k 0 }
{
    QQ5.get(usize::from(k)).copied().unwrap_or(0)
}

// The output of the 4-bit inverse quantiser at an address.
#[tactic(auto, unfolding(g722::specs::Tables::qq4))]
pub fn qq4_at(k: u8) -> u16
    ensures { result ≡ get_or qq4 k 0 }
{
    QQ4.get(usize::from(k)).copied().unwrap_or(0)
}

// The output of the high band's inverse quantiser at an address.
#[tactic(auto, unfolding(g722::specs::Tables::qq2))]
pub fn qq2_at(k: u8) -> u16
    ensures { result ≡ get_or qq2 k 0 }
{
    QQ2.get(usize::from(k)).copied().unwrap_or(0)
}

// The weight of the low band at an address.
#[tactic(auto, unfolding(g722::specs::Tables::wl))]
pub fn wl_at(k: u8) -> i16
    ensures { result ≡ get_or wl k (pos 0) }
{
    WL.get(usize::from(k)).copied().unwrap_or(0)
}

// The weight of the high band at an address.
#[tactic(auto, unfolding(g722::specs::Tables::wh))]
pub fn wh_at(k: u8) -> i16
    ensures { result ≡ get_or wh k (pos 0) }
{
    WH.get(usize::from(k)).copied().unwrap_or(0)
}
