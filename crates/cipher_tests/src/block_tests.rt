//! Vectors from outside, as numbers whose most significant octet comes first.
use crate::scripts::check;
use std::alloc::AllocError;

const BLOCKS: &str = "\
# Key, block and cipher text: appendices B and C.1 of FIPS 197, and F.1.1 of NIST SP 800-38A.
cipher encrypt 2b7e151628aed2a6abf7158809cf4f3c 3243f6a8885a308d313198a2e0370734 = \
    3925841d02dc09fbdc118597196a0b32
cipher encrypt 000102030405060708090a0b0c0d0e0f 00112233445566778899aabbccddeeff = \
    69c4e0d86a7b0430d8cdb78070b4c55a
cipher encrypt 2b7e151628aed2a6abf7158809cf4f3c 6bc1bee22e409f96e93d7e117393172a = \
    3ad77bb40d7a3660a89ecaf32466ef97
cipher encrypt 2b7e151628aed2a6abf7158809cf4f3c ae2d8a571e03ac9c9eb76fac45af8e51 = \
    f5d3d58503b9699de785895a96fdbaaf
cipher encrypt 2b7e151628aed2a6abf7158809cf4f3c 30c81c46a35ce411e5fbc1191a0a52ef = \
    43b1cd7f598ece23881b00e3ed030688
cipher encrypt 2b7e151628aed2a6abf7158809cf4f3c f69f2445df4f9b17ad2b417be66c3710 = \
    7b0c785e27e8ad3f8223207104725dd4
# Key, block and answer of a host.
cipher encrypt_for_host 0f0e0d0c0b0a09080706050403020100 ffeeddccbbaa99887766554433221100 = \
    5ac5b47080b7cdd830047b6ad8e0c469
";

#[test]
fn encrypts_blocks(rt: HostRuntime) -> Result<(), AllocError> {
    check(&rt, rt.alloc(), BLOCKS)
}
