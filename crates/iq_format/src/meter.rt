// The level of a recording, as a radio's meter shows it.
ghost use Rattle.std.specs.Prelude.{◌≡◌};
ghost use Rattle.iq_format.specs.Level.{level_of, loudness, peak_of};

// The first bit pattern that is not below 0, −1, −2, .., −98 dBFS.
const STEP_PATTERNS: [u32; 99] = [
    0x3f80_0000,
    0x3f64_2906,
    0x3f4b_5919,
    0x3f35_3bf0,
    0x3f21_866c,
    0x3f0f_f59a,
    0x3f00_4dcf,
    0x3ee4_b3b7,
    0x3ecb_d4b4,
    0x3eb5_aa1a,
    0x3ea1_e89c,
    0x3e90_4d1c,
    0x3e80_9bcd,
    0x3e65_3ebc,
    0x3e4c_509b,
    0x3e36_1888,
    0x3e22_4b07,
    0x3e10_a4d3,
    0x3e00_e9fa,
    0x3de5_ca15,
    0x3dcc_cccd,
    0x3db6_8738,
    0x3da2_adae,
    0x3d90_fcc0,
    0x3d81_3857,
    0x3d66_55c4,
    0x3d4d_494b,
    0x3d36_f62c,
    0x3d23_1090,
    0x3d11_54e2,
    0x3d01_86e3,
    0x3ce6_e1c7,
    0x3ccd_c614,
    0x3cb7_6563,
    0x3ca3_73af,
    0x3c91_ad39,
    0x3c81_d59f,
    0x3c67_6e1f,
    0x3c4e_4329,
    0x3c37_d4de,
    0x3c23_d70b,
    0x3c12_05c7,
    0x3c02_248b,
    0x3be7_facc,
    0x3bce_c08a,
    0x3bb8_449d,
    0x3ba4_3aa2,
    0x3b92_5e8a,
    0x3b82_73a7,
    0x3b68_87d0,
    0x3b4f_3e38,
    0x3b38_b49f,
    0x3b24_9e77,
    0x3b12_b783,
    0x3b02_c2f3,
    0x3ae9_1528,
    0x3acf_bc31,
    0x3ab9_24e6,
    0x3aa5_0287,
    0x3a93_10b2,
    0x3a83_126f,
    0x3a69_a2d7,
    0x3a50_3a78,
    0x3a39_9570,
    0x3a25_66d5,
    0x3a13_6a17,
    0x3a03_621c,
    0x39ea_30dc,
    0x39d0_b90b,
    0x39ba_0640,
    0x39a5_cb60,
    0x3993_c3b3,
    0x3983_b1f9,
    0x396a_bf37,
    0x3951_37eb,
    0x393a_7754,
    0x3926_3028,
    0x3914_1d85,
    0x3904_0206,
    0x38eb_4de9,
    0x38d1_b718,
    0x38ba_e8ac,
    0x38a6_952d,
    0x3894_778d,
    0x3884_5244,
    0x386b_dcf1,
    0x3852_3692,
    0x383b_5a4a,
    0x3826_fa6f,
    0x3814_d1cd,
    0x3804_a2b3,
    0x37ec_6c51,
    0x37d2_b65a,
    0x37bb_cc2c,
    0x37a7_5fef,
    0x3795_2c43,
    0x3784_f353,
    0x376c_fc07,
    0x3753_3670,
];

// Patterns without their sign are in the order of the sizes.
#[tactic(auto, unfolding(crate::specs::Level::loudness))]
fn loudness(x: f32) -> u32
    ensures { result ≡ loudness x }
{
    if x.is_nan() {
        0
    } else {
        x.to_bits() % 0x8000_0000
    }
}

#[tactic(auto, using(crate::proofs::Steps::peak_none, crate::proofs::Steps::peak_more))]
fn peak(parts: &[f32]) -> u32
    ensures { result ≡ peak_of parts.now }
{
    let mut peak: u32 = 0;
    for part in parts {
        peak = peak.max(loudness(*part));
    }
    peak
}

// The level of the largest part in dB below full scale, which is 1.0, rounded up: 0 where a part is 1.0 or more, at
// most 99. NaN counts as 0.
pub fn level(parts: &[f32]) -> u32
    ensures { result ≡ level_of parts.now }
{
    let peak = peak(parts);
    STEP_PATTERNS.iter().filter(|step| peak < **step).count() as u32
}
