//! The opcodes of the machine rows, by the mnemonics of the Principles of Operation; where a row has a mnemonic for each element
//! size, by the mnemonic without the size. The formats say where the digits stand.

pub const BCR: u16 = 0x07;

pub const BASR: u16 = 0x0d;

pub const LPR: u16 = 0x10;

pub const LCR: u16 = 0x13;

pub const NR: u16 = 0x14;

pub const CLR: u16 = 0x15;

pub const OR: u16 = 0x16;

pub const XR: u16 = 0x17;

pub const LR: u16 = 0x18;

pub const CR: u16 = 0x19;

pub const AR: u16 = 0x1a;

pub const SR: u16 = 0x1b;

pub const ALR: u16 = 0x1e;

pub const SLR: u16 = 0x1f;

pub const LDR: u16 = 0x28;

pub const LER: u16 = 0x38;

pub const STH: u16 = 0x40;

pub const LA: u16 = 0x41;

pub const STC: u16 = 0x42;

pub const LH: u16 = 0x48;

pub const CH: u16 = 0x49;

pub const AH: u16 = 0x4a;

pub const SH: u16 = 0x4b;

pub const MH: u16 = 0x4c;

pub const ST: u16 = 0x50;

pub const N: u16 = 0x54;

pub const CL: u16 = 0x55;

pub const O: u16 = 0x56;

pub const X: u16 = 0x57;

pub const L: u16 = 0x58;

pub const C: u16 = 0x59;

pub const A: u16 = 0x5a;

pub const S: u16 = 0x5b;

pub const AL: u16 = 0x5e;

pub const SL: u16 = 0x5f;

pub const STD: u16 = 0x60;

pub const LD: u16 = 0x68;

pub const STE: u16 = 0x70;

pub const MS: u16 = 0x71;

pub const LE: u16 = 0x78;

pub const MVI: u16 = 0x92;

pub const CS: u16 = 0xba;

pub const IIHH: u16 = 0xa50;

pub const IIHL: u16 = 0xa51;

pub const IILH: u16 = 0xa52;

pub const IILL: u16 = 0xa53;

pub const NIHH: u16 = 0xa54;

pub const NIHL: u16 = 0xa55;

pub const NILH: u16 = 0xa56;

pub const NILL: u16 = 0xa57;

pub const OIHH: u16 = 0xa58;

pub const OIHL: u16 = 0xa59;

pub const OILH: u16 = 0xa5a;

pub const OILL: u16 = 0xa5b;

pub const LLIHH: u16 = 0xa5c;

pub const LLIHL: u16 = 0xa5d;

pub const LLILH: u16 = 0xa5e;

pub const LLILL: u16 = 0xa5f;

pub const BRC: u16 = 0xa74;

pub const BRAS: u16 = 0xa75;

pub const LHI: u16 = 0xa78;

pub const LGHI: u16 = 0xa79;

pub const AHI: u16 = 0xa7a;

pub const AGHI: u16 = 0xa7b;

pub const MHI: u16 = 0xa7c;

pub const MGHI: u16 = 0xa7d;

pub const CHI: u16 = 0xa7e;

pub const CGHI: u16 = 0xa7f;

pub const LARL: u16 = 0xc00;

pub const LGFI: u16 = 0xc01;

pub const BRCL: u16 = 0xc04;

pub const BRASL: u16 = 0xc05;

pub const XIHF: u16 = 0xc06;

pub const XILF: u16 = 0xc07;

pub const IIHF: u16 = 0xc08;

pub const IILF: u16 = 0xc09;

pub const NIHF: u16 = 0xc0a;

pub const NILF: u16 = 0xc0b;

pub const OIHF: u16 = 0xc0c;

pub const OILF: u16 = 0xc0d;

pub const LLIHF: u16 = 0xc0e;

pub const LLILF: u16 = 0xc0f;

pub const MSGFI: u16 = 0xc20;

pub const MSFI: u16 = 0xc21;

pub const SLGFI: u16 = 0xc24;

pub const SLFI: u16 = 0xc25;

pub const AGFI: u16 = 0xc28;

pub const AFI: u16 = 0xc29;

pub const ALGFI: u16 = 0xc2a;

pub const ALFI: u16 = 0xc2b;

pub const CGFI: u16 = 0xc2c;

pub const CFI: u16 = 0xc2d;

pub const CLGFI: u16 = 0xc2e;

pub const CLFI: u16 = 0xc2f;

pub const LLHRL: u16 = 0xc42;

pub const LGHRL: u16 = 0xc44;

pub const LHRL: u16 = 0xc45;

pub const LLGHRL: u16 = 0xc46;

pub const STHRL: u16 = 0xc47;

pub const LGRL: u16 = 0xc48;

pub const STGRL: u16 = 0xc4b;

pub const LGFRL: u16 = 0xc4c;

pub const LRL: u16 = 0xc4d;

pub const LLGFRL: u16 = 0xc4e;

pub const STRL: u16 = 0xc4f;

pub const CGHRL: u16 = 0xc64;

pub const CHRL: u16 = 0xc65;

pub const CLGHRL: u16 = 0xc66;

pub const CLHRL: u16 = 0xc67;

pub const CGRL: u16 = 0xc68;

pub const CLGRL: u16 = 0xc6a;

pub const CGFRL: u16 = 0xc6c;

pub const CRL: u16 = 0xc6d;

pub const CLGFRL: u16 = 0xc6e;

pub const CLRL: u16 = 0xc6f;

pub const EAR: u16 = 0xb24f;

pub const MSR: u16 = 0xb252;

pub const LDGR: u16 = 0xb3c1;

pub const LGDR: u16 = 0xb3cd;

pub const LPGR: u16 = 0xb900;

pub const LCGR: u16 = 0xb903;

pub const LGR: u16 = 0xb904;

pub const LGBR: u16 = 0xb906;

pub const LGHR: u16 = 0xb907;

pub const AGR: u16 = 0xb908;

pub const SGR: u16 = 0xb909;

pub const ALGR: u16 = 0xb90a;

pub const SLGR: u16 = 0xb90b;

pub const MSGR: u16 = 0xb90c;

pub const DSGR: u16 = 0xb90d;

pub const LRVGR: u16 = 0xb90f;

pub const LPGFR: u16 = 0xb910;

pub const LCGFR: u16 = 0xb913;

pub const LGFR: u16 = 0xb914;

pub const LLGFR: u16 = 0xb916;

pub const AGFR: u16 = 0xb918;

pub const SGFR: u16 = 0xb919;

pub const ALGFR: u16 = 0xb91a;

pub const SLGFR: u16 = 0xb91b;

pub const MSGFR: u16 = 0xb91c;

pub const DSGFR: u16 = 0xb91d;

pub const LRVR: u16 = 0xb91f;

pub const CGR: u16 = 0xb920;

pub const CLGR: u16 = 0xb921;

pub const LBR: u16 = 0xb926;

pub const LHR: u16 = 0xb927;

pub const CGFR: u16 = 0xb930;

pub const CLGFR: u16 = 0xb931;

pub const CGRT: u16 = 0xb960;

pub const CLGRT: u16 = 0xb961;

pub const NNGRK: u16 = 0xb964;

pub const OCGRK: u16 = 0xb965;

pub const NOGRK: u16 = 0xb966;

pub const NXGRK: u16 = 0xb967;

pub const CLZG: u16 = 0xb968;

pub const CTZG: u16 = 0xb969;

pub const CRT: u16 = 0xb972;

pub const CLRT: u16 = 0xb973;

pub const NNRK: u16 = 0xb974;

pub const OCRK: u16 = 0xb975;

pub const NORK: u16 = 0xb976;

pub const NXRK: u16 = 0xb977;

pub const NGR: u16 = 0xb980;

pub const OGR: u16 = 0xb981;

pub const XGR: u16 = 0xb982;

pub const FLOGR: u16 = 0xb983;

pub const LLGCR: u16 = 0xb984;

pub const LLGHR: u16 = 0xb985;

pub const MLGR: u16 = 0xb986;

pub const DLGR: u16 = 0xb987;

pub const LLCR: u16 = 0xb994;

pub const LLHR: u16 = 0xb995;

pub const DLR: u16 = 0xb997;

pub const POPCNT: u16 = 0xb9e1;

pub const LOCGR: u16 = 0xb9e2;

pub const NGRK: u16 = 0xb9e4;

pub const NCGRK: u16 = 0xb9e5;

pub const OGRK: u16 = 0xb9e6;

pub const XGRK: u16 = 0xb9e7;

pub const AGRK: u16 = 0xb9e8;

pub const SGRK: u16 = 0xb9e9;

pub const ALGRK: u16 = 0xb9ea;

pub const SLGRK: u16 = 0xb9eb;

pub const MGRK: u16 = 0xb9ec;

pub const MSGRKC: u16 = 0xb9ed;

pub const LOCR: u16 = 0xb9f2;

pub const NRK: u16 = 0xb9f4;

pub const NCRK: u16 = 0xb9f5;

pub const ORK: u16 = 0xb9f6;

pub const XRK: u16 = 0xb9f7;

pub const ARK: u16 = 0xb9f8;

pub const SRK: u16 = 0xb9f9;

pub const ALRK: u16 = 0xb9fa;

pub const SLRK: u16 = 0xb9fb;

pub const MSRKC: u16 = 0xb9fd;

pub const LG: u16 = 0xe304;

pub const AG: u16 = 0xe308;

pub const SG: u16 = 0xe309;

pub const ALG: u16 = 0xe30a;

pub const SLG: u16 = 0xe30b;

pub const MSG: u16 = 0xe30c;

pub const LRVG: u16 = 0xe30f;

pub const LGF: u16 = 0xe314;

pub const LGH: u16 = 0xe315;

pub const LLGF: u16 = 0xe316;

pub const AGF: u16 = 0xe318;

pub const SGF: u16 = 0xe319;

pub const ALGF: u16 = 0xe31a;

pub const SLGF: u16 = 0xe31b;

pub const MSGF: u16 = 0xe31c;

pub const LRV: u16 = 0xe31e;

pub const LRVH: u16 = 0xe31f;

pub const CG: u16 = 0xe320;

pub const CLG: u16 = 0xe321;

pub const STG: u16 = 0xe324;

pub const STRVG: u16 = 0xe32f;

pub const CGF: u16 = 0xe330;

pub const CLGF: u16 = 0xe331;

pub const CGH: u16 = 0xe334;

pub const AGH: u16 = 0xe338;

pub const SGH: u16 = 0xe339;

pub const MGH: u16 = 0xe33c;

pub const STRV: u16 = 0xe33e;

pub const STRVH: u16 = 0xe33f;

pub const STY: u16 = 0xe350;

pub const MSY: u16 = 0xe351;

pub const NY: u16 = 0xe354;

pub const CLY: u16 = 0xe355;

pub const OY: u16 = 0xe356;

pub const XY: u16 = 0xe357;

pub const LY: u16 = 0xe358;

pub const CY: u16 = 0xe359;

pub const AY: u16 = 0xe35a;

pub const SY: u16 = 0xe35b;

pub const ALY: u16 = 0xe35e;

pub const SLY: u16 = 0xe35f;

pub const LXAH: u16 = 0xe362;

pub const LLXAH: u16 = 0xe363;

pub const LXAF: u16 = 0xe364;

pub const LLXAF: u16 = 0xe365;

pub const LXAG: u16 = 0xe366;

pub const LLXAG: u16 = 0xe367;

pub const LXAQ: u16 = 0xe368;

pub const LLXAQ: u16 = 0xe369;

pub const STHY: u16 = 0xe370;

pub const LAY: u16 = 0xe371;

pub const STCY: u16 = 0xe372;

pub const LB: u16 = 0xe376;

pub const LGB: u16 = 0xe377;

pub const LHY: u16 = 0xe378;

pub const CHY: u16 = 0xe379;

pub const AHY: u16 = 0xe37a;

pub const SHY: u16 = 0xe37b;

pub const MHY: u16 = 0xe37c;

pub const NG: u16 = 0xe380;

pub const OG: u16 = 0xe381;

pub const XG: u16 = 0xe382;

pub const LLGC: u16 = 0xe390;

pub const LLGH: u16 = 0xe391;

pub const LLC: u16 = 0xe394;

pub const LLH: u16 = 0xe395;

pub const MVHHI: u16 = 0xe544;

pub const MVGHI: u16 = 0xe548;

pub const MVHI: u16 = 0xe54c;

pub const VLEBRH: u16 = 0xe601;

pub const VLEBRG: u16 = 0xe602;

pub const VLEBRF: u16 = 0xe603;

pub const VLBRREP: u16 = 0xe605;

pub const VLBR: u16 = 0xe606;

pub const VLER: u16 = 0xe607;

pub const VSTEBRH: u16 = 0xe609;

pub const VSTEBRG: u16 = 0xe60a;

pub const VSTEBRF: u16 = 0xe60b;

pub const VSTBR: u16 = 0xe60e;

pub const VSTER: u16 = 0xe60f;

pub const VLEB: u16 = 0xe700;

pub const VLEH: u16 = 0xe701;

pub const VLEG: u16 = 0xe702;

pub const VLEF: u16 = 0xe703;

pub const VLREP: u16 = 0xe705;

pub const VL: u16 = 0xe706;

pub const VSTEB: u16 = 0xe708;

pub const VSTEH: u16 = 0xe709;

pub const VSTEG: u16 = 0xe70a;

pub const VSTEF: u16 = 0xe70b;

pub const VST: u16 = 0xe70e;

pub const VLGV: u16 = 0xe721;

pub const VLVG: u16 = 0xe722;

pub const VESL: u16 = 0xe730;

pub const VERLL: u16 = 0xe733;

pub const VESRL: u16 = 0xe738;

pub const VESRA: u16 = 0xe73a;

pub const VLEIB: u16 = 0xe740;

pub const VLEIH: u16 = 0xe741;

pub const VLEIG: u16 = 0xe742;

pub const VLEIF: u16 = 0xe743;

pub const VGBM: u16 = 0xe744;

pub const VREPI: u16 = 0xe745;

pub const VGM: u16 = 0xe746;

pub const VREP: u16 = 0xe74d;

pub const VPOPCT: u16 = 0xe750;

pub const VCTZ: u16 = 0xe752;

pub const VCLZ: u16 = 0xe753;

pub const VLR: u16 = 0xe756;

pub const VMRL: u16 = 0xe760;

pub const VMRH: u16 = 0xe761;

pub const VLVGP: u16 = 0xe762;

pub const VN: u16 = 0xe768;

pub const VNC: u16 = 0xe769;

pub const VO: u16 = 0xe76a;

pub const VNO: u16 = 0xe76b;

pub const VNX: u16 = 0xe76c;

pub const VX: u16 = 0xe76d;

pub const VNN: u16 = 0xe76e;

pub const VOC: u16 = 0xe76f;

pub const VSL: u16 = 0xe774;

pub const VSLB: u16 = 0xe775;

pub const VSRL: u16 = 0xe77c;

pub const VSRLB: u16 = 0xe77d;

pub const VSRA: u16 = 0xe77e;

pub const VSRAB: u16 = 0xe77f;

pub const VPDI: u16 = 0xe784;

pub const VBPERM: u16 = 0xe785;

pub const VEVAL: u16 = 0xe788;

pub const VBLEND: u16 = 0xe789;

pub const VPERM: u16 = 0xe78c;

pub const VSEL: u16 = 0xe78d;

pub const VPK: u16 = 0xe794;

pub const VPKLS: u16 = 0xe795;

pub const VPKS: u16 = 0xe797;

pub const VMLH: u16 = 0xe7a1;

pub const VML: u16 = 0xe7a2;

pub const VMH: u16 = 0xe7a3;

pub const VMLE: u16 = 0xe7a4;

pub const VMLO: u16 = 0xe7a5;

pub const VME: u16 = 0xe7a6;

pub const VMO: u16 = 0xe7a7;

pub const VDL: u16 = 0xe7b0;

pub const VRL: u16 = 0xe7b1;

pub const VD: u16 = 0xe7b2;

pub const VR: u16 = 0xe7b3;

pub const VUPLL: u16 = 0xe7d4;

pub const VUPLH: u16 = 0xe7d5;

pub const VUPL: u16 = 0xe7d6;

pub const VUPH: u16 = 0xe7d7;

pub const VECL: u16 = 0xe7d9;

pub const VEC: u16 = 0xe7db;

pub const VLC: u16 = 0xe7de;

pub const VLP: u16 = 0xe7df;

pub const VAVGL: u16 = 0xe7f0;

pub const VACCQ: u16 = 0xe7f1;

pub const VAVG: u16 = 0xe7f2;

pub const VA: u16 = 0xe7f3;

pub const VSCBIQ: u16 = 0xe7f5;

pub const VS: u16 = 0xe7f7;

pub const VCEQ: u16 = 0xe7f8;

pub const VCHL: u16 = 0xe7f9;

pub const VCH: u16 = 0xe7fb;

pub const VMNL: u16 = 0xe7fc;

pub const VMXL: u16 = 0xe7fd;

pub const VMN: u16 = 0xe7fe;

pub const VMX: u16 = 0xe7ff;

pub const LMG: u16 = 0xeb04;

pub const SRAG: u16 = 0xeb0a;

pub const SRLG: u16 = 0xeb0c;

pub const SLLG: u16 = 0xeb0d;

pub const CSY: u16 = 0xeb14;

pub const RLLG: u16 = 0xeb1c;

pub const RLL: u16 = 0xeb1d;

pub const STMG: u16 = 0xeb24;

pub const CSG: u16 = 0xeb30;

pub const MVIY: u16 = 0xeb52;

pub const SRAK: u16 = 0xebdc;

pub const SRLK: u16 = 0xebde;

pub const SLLK: u16 = 0xebdf;

pub const LANG: u16 = 0xebe4;

pub const LAOG: u16 = 0xebe6;

pub const LAXG: u16 = 0xebe7;

pub const LAAG: u16 = 0xebe8;

pub const LAALG: u16 = 0xebea;

pub const LAN: u16 = 0xebf4;

pub const LAO: u16 = 0xebf6;

pub const LAX: u16 = 0xebf7;

pub const LAA: u16 = 0xebf8;

pub const LAAL: u16 = 0xebfa;

pub const LOCHI: u16 = 0xec42;

pub const LOCGHI: u16 = 0xec46;

pub const RNSBG: u16 = 0xec54;

pub const ROSBG: u16 = 0xec56;

pub const RXSBG: u16 = 0xec57;

pub const RISBGN: u16 = 0xec59;

pub const CGIT: u16 = 0xec70;

pub const CLGIT: u16 = 0xec71;

pub const CIT: u16 = 0xec72;

pub const CLFIT: u16 = 0xec73;

pub const AHIK: u16 = 0xecd8;

pub const AGHIK: u16 = 0xecd9;

pub const LEY: u16 = 0xed64;

pub const LDY: u16 = 0xed65;

pub const STEY: u16 = 0xed66;

pub const STDY: u16 = 0xed67;
