// A feeder in memory: its source, branches and loads. specs/Layout.antt and specs/Feeder.antt say what a file holds and which files are refused.
#![tactic(auto)]

ghost use Rattle.std.specs.Prelude.{◌≡◌, ◌&&◌, ◌+◌, ◌<◌, ◌≤◌, length};
ghost use Rattle.feeder.specs.Feeder.{moves_taps, regulates, tapped_branch, taps_on, device_of, pair_at, phase_signs, regulator_of, three_at};
ghost use Rattle.feeder.specs.declared.Device.TheVariants.{Transformer};
ghost use Rattle.feeder.specs.declared.Kind.TheVariants.{L, R};
ghost use Rattle.text.specs.Lines.{nth};

use integers::{Pair, whole};

// One for each phase.
#[derive(Clone, Copy, PartialEq, Eq)]
pub struct PerPhase<T> {
    pub a: T,
    pub b: T,
    pub c: T,
}

impl<T: Copy> PerPhase<T> {
    // The same on each phase.
    pub fn same(x: T) -> PerPhase<T>
        ensures { result ≡ record { a = x; b = x; c = x } }
    {
        PerPhase { a: x, b: x, c: x }
    }

    // What f makes of each.
    pub fn map<U, F: Fn(T) -> U>(self, f: F) -> PerPhase<U>
        requires a { F.pre f self.a }
        requires b { F.pre f self.b }
        requires c { F.pre f self.c }
        ensures a { F.post f self.a result.a }
        ensures b { F.post f self.b result.b }
        ensures c { F.post f self.c result.c }
    {
        PerPhase {
            a: f(self.a),
            b: f(self.b),
            c: f(self.c),
        }
    }

    // What f makes of each with the other's on the same phase.
    pub fn zip<U: Copy, V, F: Fn(T, U) -> V>(self, other: PerPhase<U>, f: F) -> PerPhase<V>
        requires a { F.pre f self.a other.a }
        requires b { F.pre f self.b other.b }
        requires c { F.pre f self.c other.c }
        ensures a { F.post f self.a other.a result.a }
        ensures b { F.post f self.b other.b result.b }
        ensures c { F.post f self.c other.c result.c }
    {
        PerPhase {
            a: f(self.a, other.a),
            b: f(self.b, other.b),
            c: f(self.c, other.c),
        }
    }
}

impl PerPhase<bool> {
    // Whether it holds on every phase.
    pub fn all(self) -> bool
        ensures { result ≡ (self.a && (self.b && self.c)) }
    {
        self.a && (self.b && self.c)
    }
}

// A pair for each phase: the voltages at a node, or the currents of a branch.
pub type Three = PerPhase<Pair>;

#[derive(Clone, Copy, PartialEq, Eq)]
pub enum Phase {
    A,
    B,
    C,
}

// What a load stands between: one phase and ground, or two phases.
#[derive(Clone, Copy, PartialEq, Eq)]
pub enum Terminals {
    OnA,
    OnB,
    OnC,
    AB,
    BC,
    CA,
}

// What of each phase's voltage or current counts: -1, 0 or 1.
pub type Signs = PerPhase<i64>;

// The phases that a branch or a node has.
pub type Phases = PerPhase<bool>;

// A line's impedances. The matrix is symmetric.
#[derive(Clone, Copy)]
pub struct LineZ {
    pub aa: Pair,
    pub ab: Pair,
    pub ac: Pair,
    pub bb: Pair,
    pub bc: Pair,
    pub cc: Pair,
}

// A regulator's tap on each phase.
pub type Taps = PerPhase<i64>;

// A regulator: its taps, and the relay that sets them where level is above 0: level and band in cV, potential ratio, current ratio, compensator R + jX.
#[derive(Clone, Copy)]
pub struct TapChanger {
    pub taps: Taps,
    pub level: i64,
    pub band: i64,
    pub potential: i64,
    pub current: i64,
    pub z: Pair,
}

// Grounded wye to grounded wye, or delta to grounded wye.
#[derive(Clone, Copy, PartialEq, Eq)]
pub enum Connection {
    Wye,
    Delta,
}

// A transformer: turns ratio n / m, and the impedances on the low side.
#[derive(Clone, Copy)]
pub struct Windings {
    pub connection: Connection,
    pub n: i64,
    pub m: i64,
    pub z: Three,
}

#[derive(Clone, Copy)]
pub enum Device {
    Line(LineZ),
    Regulator(TapChanger),
    Transformer(Windings),
}

// The branch of row k feeds node k. Node 0 is the source.
#[derive(Clone, Copy)]
pub struct Branch {
    pub from: usize,
    pub phases: Phases,
    pub device: Device,
}

#[derive(Clone, Copy, PartialEq, Eq)]
pub enum LoadKind {
    Power,
    Current,
    Impedance,
}

// s is (p, q) in VA.
#[derive(Clone, Copy)]
pub struct Load {
    pub node: usize,
    pub phase: Terminals,
    pub kind: LoadKind,
    pub vn: i64,
    pub s: Pair,
}

// A branch row as it stands in the file: names packed into numbers, and the values of p1 to p12.
#[derive(Clone, Copy)]
pub struct BranchRow {
    pub from: u64,
    pub to: u64,
    pub phases: Phases,
    pub kind: Kind,
    pub p: [i64; 12],
}

// A load row as it stands in the file.
#[derive(Clone, Copy)]
pub struct LoadRow {
    pub node: u64,
    pub phase: Terminals,
    pub kind: LoadKind,
    pub vn: i64,
    pub s: Pair,
}

// The letter in a branch row's column "kind".
#[derive(Clone, Copy, PartialEq, Eq)]
pub enum Kind {
    L,
    R,
    Y,
    D,
}

// The rows of a feeder's file in memory: as many of them as there is room for, and how many there are.
#[derive(Clone, Copy)]
pub struct Tables {
    pub source: u64,
    pub given: [i64; 8],
    pub rows: usize,
    pub branches: [BranchRow; 200],
    pub count: usize,
    pub loads: [LoadRow; 300],
}

// A feeder in memory. Node 0 is the source and node k the "to" of branch row k, so place 0 of `branches` is unused.
// `order` has the nodes so that each comes after the one that feeds it, and `rank` each node's place there, counted from 1.
// That it has at most 200 branch rows and 300 load rows is part of the type, so no contract asks it.
// Both are filled in place, and not handed back by value: an answer of 40 KB would be copied by each `?` that it passes.
#[derive(Clone, Copy)]
pub struct Network {
    pub source: Three,
    pub tol: u64,
    pub limit: usize,
    pub rows: usize,
    pub nodes: [u64; 201],
    pub branches: [Branch; 201],
    pub count: usize,
    pub loads: [Load; 300],
    pub order: [usize; 201],
    pub rank: [usize; 201],
    ghost few_rows: { rows ≤ 200 },
    ghost few_loads: { count ≤ 300 },
}

// Nothing on a phase, and nothing on any.
const NONE: Pair = Pair { re: 0, im: 0 };

pub const NO_THREE: Three = Three {
    a: NONE,
    b: NONE,
    c: NONE,
};

pub const NO_TAPS: Taps = Taps { a: 0, b: 0, c: 0 };

const NO_PHASES: Phases = Phases {
    a: false,
    b: false,
    c: false,
};

// What stands where there is no row. The numbers are written out: of [0; 12] the compiler makes 200 rows beside the tables, and copies them there, twice.
const NO_BRANCH_ROW: BranchRow = BranchRow {
    from: 0,
    to: 0,
    phases: NO_PHASES,
    kind: Kind::L,
    p: [0, 0, 0, 0, 0, 0, 0, 0, 0, 0, 0, 0],
};

const NO_LOAD_ROW: LoadRow = LoadRow {
    node: 0,
    phase: Terminals::OnA,
    kind: LoadKind::Power,
    vn: 0,
    s: NONE,
};

const NO_BRANCH: Branch = Branch {
    from: 0,
    phases: NO_PHASES,
    device: Device::Line(LineZ {
        aa: NONE,
        ab: NONE,
        ac: NONE,
        bb: NONE,
        bc: NONE,
        cc: NONE,
    }),
};

const NO_LOAD: Load = Load {
    node: 0,
    phase: Terminals::OnA,
    kind: LoadKind::Power,
    vn: 0,
    s: NONE,
};

impl Tables {
    ghost use Rattle.feeder.specs.Network.{no_tables};

    // With no row in them.
    pub fn empty() -> Tables
        ensures { result ≡ no_tables }
    {
        Tables {
            source: 0,
            given: [0; 8],
            rows: 0,
            branches: [NO_BRANCH_ROW; 200],
            count: 0,
            loads: [NO_LOAD_ROW; 300],
        }
    }
}

impl Network {
    ghost use Rattle.feeder.specs.Network.{no_network};

    // With no feeder in it.
    pub fn empty() -> Network
        ensures { result ≡ no_network }
    {
        Network {
            source: NO_THREE,
            tol: 0,
            limit: 0,
            rows: 0,
            nodes: [0; 201],
            branches: [NO_BRANCH; 201],
            count: 0,
            loads: [NO_LOAD; 300],
            order: [0; 201],
            rank: [0; 201],
        }
    }
}

// The number at place k, counted from 1, and the one behind it.
pub fn pair_at(values: &[i64], k: usize) -> Pair
    requires { (1 ≤ k) × (k < length values.now) }
    ensures { result ≡ pair_at values.now k }
{
    Pair {
        re: values[k - 1],
        im: values[k],
    }
}

// Six numbers from place k on, as a pair for each phase.
pub fn three_at(values: &[i64], k: usize) -> Three
    requires { (1 ≤ k) × (k + 4 < length values.now) }
    ensures { result ≡ three_at values.now k }
{
    let a = pair_at(values, k);
    let b = pair_at(values, k + 2);
    let c = pair_at(values, k + 4);
    Three { a, b, c }
}

#[tactic(auto, unfolding(crate::specs::Feeder::device_of))]
fn line_of(p: &[i64; 12]) -> Device
    ensures { result ≡ device_of L p.now }
{
    Device::Line(LineZ {
        aa: pair_at(p, 1),
        ab: pair_at(p, 3),
        ac: pair_at(p, 5),
        bb: pair_at(p, 7),
        bc: pair_at(p, 9),
        cc: pair_at(p, 11),
    })
}

#[tactic(auto, unfolding(crate::specs::Feeder::device_of))]
fn regulator_in(p: &[i64; 12]) -> Device
    ensures { result ≡ device_of R p.now }
{
    let taps = Taps {
        a: p[0],
        b: p[1],
        c: p[2],
    };
    Device::Regulator(TapChanger {
        taps,
        level: p[3],
        band: p[4],
        potential: p[5],
        current: p[6],
        z: pair_at(p, 8),
    })
}

fn transformer_of(connection: Connection, p: &[i64; 12]) -> Device
    ensures { result ≡ Transformer (record { connection = connection; n = nth p.now 1; m = nth p.now 2; z = three_at p.now 3 }) }
{
    Device::Transformer(Windings {
        connection,
        n: p[0],
        m: p[1],
        z: three_at(p, 3),
    })
}

// The device that a row's kind and its p1 to p12 make.
#[tactic(auto, unfolding(crate::specs::Feeder::device_of))]
pub fn device_of(kind: Kind, p: &[i64; 12]) -> Device
    ensures { result ≡ device_of kind p.now }
{
    match kind {
        Kind::L => line_of(p),
        Kind::R => regulator_in(p),
        Kind::Y => transformer_of(Connection::Wye, p),
        Kind::D => transformer_of(Connection::Delta, p),
    }
}

impl Device {
    // The regulator, where it is one.
    pub fn regulator(&self) -> Option<TapChanger>
        ensures { result ≡ regulator_of self.now }
    {
        match *self {
            Device::Regulator(x) => Some(x),
            Device::Line(_) | Device::Transformer(_) => None,
        }
    }

    // Whether it is one.
    pub fn regulates(&self) -> bool
        ensures { result ≡ regulates self.now }
    {
        self.regulator().is_some()
    }

    // Its taps.
    pub fn taps(&self) -> Taps
        ensures { result ≡ taps_on self.now }
    {
        match self.regulator() {
            Some(x) => x.taps,
            None => NO_TAPS,
        }
    }

    // Whether it moves them.
    #[tactic(auto, unfolding(integers::specs::Pairs::inside))]
    pub fn moves_taps(&self) -> bool
        ensures { result ≡ moves_taps self.now }
    {
        match *self {
            Device::Regulator(x) => !whole::inside(x.level, 0),
            Device::Line(_) | Device::Transformer(_) => false,
        }
    }
}

impl Branch {
    // Sets a regulator's taps. A line or a transformer has none.
    pub fn set_taps(&mut self, taps: Taps)
        ensures { self.new ≡ tapped_branch taps self.old }
    {
        if let Device::Regulator(x) = self.device {
            self.device = Device::Regulator(TapChanger { taps, ..x });
        }
    }
}

// The signs of A, B, C, AB, BC and CA, for a load's voltage and for its current alike.
pub fn signs_of(terminals: Terminals) -> Signs
    ensures { result ≡ phase_signs terminals }
{
    match terminals {
        Terminals::OnA => Signs { a: 1, b: 0, c: 0 },
        Terminals::OnB => Signs { a: 0, b: 1, c: 0 },
        Terminals::OnC => Signs { a: 0, b: 0, c: 1 },
        Terminals::AB => Signs { a: 1, b: -1, c: 0 },
        Terminals::BC => Signs { a: 0, b: 1, c: -1 },
        Terminals::CA => Signs { a: -1, b: 0, c: 1 },
    }
}
