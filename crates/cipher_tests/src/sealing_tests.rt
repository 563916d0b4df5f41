//! The sample data of Core 5.2, volume 6 part C, section 1, two long payloads by another program,
//! and each length.
use crate::scripts::check;
use ccm_link::laws::sealed_payloads;
use std::alloc::AllocError;

const PAYLOADS: &str = "\
# The key diversifiers of the central and of the peripheral.
cipher session_key acbdcedfe0f10213 0213243546576879 = 99ad1b5226a37e3e058e3b8e27c2c666
# Each end's START_ENC_RSP, and then a data packet of 27 octets from each.
cipher seal 00 central 0f 06 = 9fcda7f448
cipher unseal 00 central 0f 9fcda7f448 = 06
cipher seal 00 peripheral 07 06 = a34c13a415
cipher unseal 00 peripheral 07 a34c13a415 = 06
cipher seal 01 central 0e 1700636465666768696a6b6c6d6e6f707131323334353637383930 = \
    7a70d66415226df26b17839a060405596bd6564f796b5b9ce6ff32f75a6d33
cipher unseal 01 central 0e 7a70d66415226df26b17839a060405596bd6564f796b5b9ce6ff32f75a6d33 = \
    1700636465666768696a6b6c6d6e6f707131323334353637383930
cipher seal 01 peripheral 06 170037363534333231304142434445464748494a4b4c4d4e4f5051 = \
    f38881e7bd94c9c369b9a66846dd4786aa8c39ce540d0dae3adcdf89b96088
cipher unseal 01 peripheral 06 f38881e7bd94c9c369b9a66846dd4786aa8c39ce540d0dae3adcdf89b96088 = \
    170037363534333231304142434445464748494a4b4c4d4e4f5051
# A sealed payload with another last octet, and one with no octet before its MIC.
cipher unseal 00 central 0f 9fcda7f449 = forged
cipher unseal 00 central 0f 9fcda7f4 = forged
# The octets 01 to FB: how many octets the sealed payload has, its first 16, and its last 20, of
# which four are the MIC. They come from an independent program.
cipher long 7fffffffff peripheral 02 = \
    255 840ea064278d5b8b521ce646a26f0cf3 1d438417c781153f404045ebda15b02f17cc0bf9 yes
cipher long 0102030405 central 1e = \
    255 a63ab7cd449dbffb5d8ca7ebe1716240 ab86033bbee42a29241d88d82652327b0a2a6230 yes
# The first octets of the same payload, of each number from 1 to 251.
cipher lengths 7fffffffff peripheral 02 = yes
";

#[test]
fn seals_and_unseals(rt: HostRuntime) -> Result<(), AllocError> {
    check(&rt, rt.alloc(), PAYLOADS)?;
    sealed_payloads();
    Ok(())
}
