// The marks of the records, two ASCII letters each, as one number. Those of a query.
pub const QL: usize = 0x514C;

pub const QB: usize = 0x5142;

pub const QE: usize = 0x5145;

pub const QR: usize = 0x5152;

pub const QV: usize = 0x5156;

pub const QS: usize = 0x5153;

pub const QT: usize = 0x5154;

pub const QF: usize = 0x5146;

pub const QI: usize = 0x5149;

pub const QO: usize = 0x514F;

pub const QC: usize = 0x5143;

pub const QD: usize = 0x5144;

pub const QX: usize = 0x5158;

// Those of a plan.
pub const RT: usize = 0x5254;

pub const RA: usize = 0x5241;

pub const RP: usize = 0x5250;

pub const RU: usize = 0x5255;

pub const RD: usize = 0x5244;

pub const RS: usize = 0x5253;

pub const RJ: usize = 0x524A;

pub const RN: usize = 0x524E;

pub const RF: usize = 0x5246;

pub const RC: usize = 0x5243;

pub const RE: usize = 0x5245;

pub const RK: usize = 0x524B;

pub const RX: usize = 0x5258;

pub const RO: usize = 0x524F;
