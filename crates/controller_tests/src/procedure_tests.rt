//! Control procedures of a link, call by call: control PDUs of the peer, as worked out by hand, and
//! what the host receives.
use crate::scripts::check;
use std::alloc::AllocError;

const PROCEDURES: &str = "\
start 1d123456
# The peer ends the link.
# A central takes LL_TERMINATE_IND, and ends the link as the turn ends in which it acknowledges it.
a host 01010c08ffffffffff1f0020 = up 040e0401010c00
a host 010d20196000600000000b0000eeffc000180018000000480000000000 = up 040f0400010d20
a begin 0 = listen 37
a hear d6be898eadd45ca13d499970ede427 = send 37 \
    d6be898ea8f05da13d4999707e3111a669b7d1a23098aad09e5233d8a2980824833b038e5c0b4a6dc6c387
a unheard = idle open 0 central public 0a0000eeffc0 public 0b0000eeffc0 up \
    043e130100000000000b0000eeffc018000000480000
a unheard = idle
a end
a turns 1 2 =
a begin 2 = send 25 2941767150fa1ee550 enter 0 0 25
a unheard = listen 25
a hear 2941767156f828a77cf369 = idle took 0 1 3 0213
a unheard = idle
a end
a turns 3 26 =
a begin 26 = send 20 29417671f95529951e enter 0 1 20
a unheard = listen 20
a unheard = idle
a end = shut 0 13 up 04050400000013
a host 013020020000 = up 040e080130200200000000
start 1d123456
# A peripheral answers the packet first.
b host 01010c08ffffffffff1f0020 = up 040e0401010c00
b host 010a200101 = up 040e04010a2000
b begin 0 = send 37 d6be898eadd45ca13d499970ede427
b unheard = listen 37
b hear d6be898ea8f05da13d4999707e3111a669b7d1a23098aad09e5233d8a2980824833b038e5c0b4a6dc6c387 = \
    idle open 0 peripheral public 0b0000eeffc0 public 0a0000eeffc0 up \
    043e130100000001000a0000eeffc018000000480000
b unheard = idle
b end
b turns 1 2 =
b begin 2 = listen 25 enter 0 0 25
b hear 2941767152f828a73dd701 = send 25 2941767154facde350 took 0 1 3 0213
b unheard = idle
b unheard = idle
b end = shut 0 13 up 04050400000013
start 1d123456
# A request of the peripheral.
# The mask of LE events withholds it, so that it is refused with 1A.
a host 01010c08ffffffffff1f0020 = up 040e0401010c00
a host 010d20196000600000000b0000eeffc000180018000000480000000000 = up 040f0400010d20
a begin 0 = listen 37
a hear d6be898eadd45ca13d499970ede427 = send 37 \
    d6be898ea8f05da13d4999707e3111a669b7d1a23098aad09e5233d8a2980824833b038e5c0b4a6dc6c387
a unheard = idle open 0 central public 0a0000eeffc0 public 0b0000eeffc0 up \
    043e130100000000000b0000eeffc018000000480000
a unheard = idle
a end
a turns 1 2 =
a begin 2 = send 25 2941767150fa1ee550 enter 0 0 25
a unheard = listen 25
a hear 2941767156e22594e7f40cb62e6e02c9f20e8023d782ea258c95f9a4e8ec8cfb88 = idle took 0 1 3 \
    0f2000200000004800000000ffffffffffffffffffffffff
a unheard = idle
a end
a turns 3 26 =
a begin 26 = send 20 29417671fb5679c0b3f6d8e8 enter 0 1 20 sent 0 1 3 110f1a
start 1d123456
# It is asked where the mask lets it through.
a host 01010c08ffffffffff1f0020 = up 040e0401010c00
a host 010d20196000600000000b0000eeffc000180018000000480000000000 = up 040f0400010d20
a begin 0 = listen 37
a hear d6be898eadd45ca13d499970ede427 = send 37 \
    d6be898ea8f05da13d4999707e3111a669b7d1a23098aad09e5233d8a2980824833b038e5c0b4a6dc6c387
a unheard = idle open 0 central public 0a0000eeffc0 public 0b0000eeffc0 up \
    043e130100000000000b0000eeffc018000000480000
a unheard = idle
a end
a turns 1 2 =
a host 010120083f00000000000000 = up 040e0401012000
a begin 2 = send 25 2941767150fa1ee550 enter 0 0 25
a unheard = listen 25
a hear 2941767156e22594e7f40cb62e6e02c9f20e8023d782ea258c95f9a4e8ec8cfb88 = idle took 0 1 3 \
    0f2000200000004800000000ffffffffffffffffffffffff up 043e0b0600002000200000004800
a unheard = idle
a end
a turns 3 26 =
a begin 26 = send 20 29417671f95529951e enter 0 1 20
start 1d123456
# The host grants it.
a host 01010c08ffffffffff1f0020 = up 040e0401010c00
a host 010d20196000600000000b0000eeffc000180018000000480000000000 = up 040f0400010d20
a begin 0 = listen 37
a hear d6be898eadd45ca13d499970ede427 = send 37 \
    d6be898ea8f05da13d4999707e3111a669b7d1a23098aad09e5233d8a2980824833b038e5c0b4a6dc6c387
a unheard = idle open 0 central public 0a0000eeffc0 public 0b0000eeffc0 up \
    043e130100000000000b0000eeffc018000000480000
a unheard = idle
a end
a turns 1 2 =
a host 010120083f00000000000000 = up 040e0401012000
a begin 2 = send 25 2941767150fa1ee550 enter 0 0 25
a unheard = listen 25
a hear 2941767156e22594e7f40cb62e6e02c9f20e8023d782ea258c95f9a4e8ec8cfb88 = idle took 0 1 3 \
    0f2000200000004800000000ffffffffffffffffffffffff up 043e0b0600002000200000004800
a unheard = idle
a end
a turns 3 26 =
a host 0120200e0000200020000000480000000000 = up 040e06012020000000
a host 0120200e0000200020000000480000000000 = up 040e060120200c0000
a begin 26 = send 20 29417671fb5968cea9194c5d4c04dae51afe7ab4a0 enter 0 1 20 sent 0 1 3 \
    000100002000000048000700
start 1d123456
# The host refuses it, for the reason 3B.
a host 01010c08ffffffffff1f0020 = up 040e0401010c00
a host 010d20196000600000000b0000eeffc000180018000000480000000000 = up 040f0400010d20
a begin 0 = listen 37
a hear d6be898eadd45ca13d499970ede427 = send 37 \
    d6be898ea8f05da13d4999707e3111a669b7d1a23098aad09e5233d8a2980824833b038e5c0b4a6dc6c387
a unheard = idle open 0 central public 0a0000eeffc0 public 0b0000eeffc0 up \
    043e130100000000000b0000eeffc018000000480000
a unheard = idle
a end
a turns 1 2 =
a host 010120083f00000000000000 = up 040e0401012000
a begin 2 = send 25 2941767150fa1ee550 enter 0 0 25
a unheard = listen 25
a hear 2941767156e22594e7f40cb62e6e02c9f20e8023d782ea258c95f9a4e8ec8cfb88 = idle took 0 1 3 \
    0f2000200000004800000000ffffffffffffffffffffffff up 043e0b0600002000200000004800
a unheard = idle
a end
a turns 3 26 =
a host 0121200300003b = up 040e06012120000000
a begin 26 = send 20 29417671fb5679c09236f4df enter 0 1 20 sent 0 1 3 110f3b
start 1d123456
# Lengths.
# LL_LENGTH_REQ of the peer is answered, and the host hears of the lengths. The next event holds \
    the radio for four slots.
b host 01010c08ffffffffff1f0020 = up 040e0401010c00
b host 010a200101 = up 040e04010a2000
b begin 0 = send 37 d6be898eadd45ca13d499970ede427
b unheard = listen 37
b hear d6be898ea8f05da13d4999707e3111a669b7d1a23098aad09e5233d8a2980824833b038e5c0b4a6dc6c387 = \
    idle open 0 peripheral public 0b0000eeffc0 public 0a0000eeffc0 up \
    043e130100000001000a0000eeffc018000000480000
b unheard = idle
b end
b turns 1 2 =
b host 010120085f00000000000000 = up 040e0401012000
b begin 2 = listen 25 enter 0 0 25
b hear 2941767152f33e4fe79c044d2e6e0abd930e = send 25 2941767154facde350 took 0 1 3 \
    14fb004808fb004808 up 043e0b0700001b004801fb004808
b unheard = idle
b unheard = idle
b end
b turns 3 26 =
b begin 26 = listen 20 enter 0 1 20
b hear 29417671f95529951e = send 20 29417671ff5c7d34a95164464c4c9313989f sent 0 1 3 \
    15fb0048081b004801
start 1d123456
# An update of the parameters.
# It holds from its Instant on, and the host hears of that before the packets of the event.
b host 01010c08ffffffffff1f0020 = up 040e0401010c00
b host 010a200101 = up 040e04010a2000
b begin 0 = send 37 d6be898eadd45ca13d499970ede427
b unheard = listen 37
b hear d6be898ea8f05da13d4999707e3111a669b7d1a23098aad09e5233d8a2980824833b038e5c0b4a6dc6c387 = \
    idle open 0 peripheral public 0b0000eeffc0 public 0a0000eeffc0 up \
    043e130100000001000a0000eeffc018000000480000
b unheard = idle
b end
b turns 1 2 =
b begin 2 = listen 25 enter 0 0 25
b hear 2941767152f62ab5e7d414b62e2666c9f00ed7a751 = send 25 2941767154facde350 took 0 1 3 \
    000100001800000064000200
b unheard = idle
b unheard = idle
b end
b turns 3 26 =
b begin 26 = listen 20 enter 0 1 20
b hear 29417671f95529951e = send 20 29417671fd55fa931e
b unheard = idle
b unheard = idle
b end
b turns 27 60 = 50 listen 6 applied 0 1 2 enter 0 2 6 up 043e0a03000000180000006400 idle idle idle
start 1d123456
# The version of the peer.
b host 01010c08ffffffffff1f0020 = up 040e0401010c00
b host 010a200101 = up 040e04010a2000
b begin 0 = send 37 d6be898eadd45ca13d499970ede427
b unheard = listen 37
b hear d6be898ea8f05da13d4999707e3111a669b7d1a23098aad09e5233d8a2980824833b038e5c0b4a6dc6c387 = \
    idle open 0 peripheral public 0b0000eeffc0 public 0a0000eeffc0 up \
    043e130100000001000a0000eeffc018000000480000
b unheard = idle
b end
b turns 1 2 =
b begin 2 = listen 25 enter 0 0 25
b hear 2941767152fc26be182b0eb658d8f2 = send 25 2941767154facde350 took 0 1 3 0c0affff0200
b unheard = idle
b unheard = idle
b end
b turns 3 26 =
b begin 26 = listen 20 enter 0 1 20
b hear 29417671f95529951e = send 20 29417671ff5364c456e66d5d2a339c sent 0 1 3 0c0bffff0100
start 1d123456
# Encryption.
# The host of a central asks for it, once at a time, and has no key to give.
a host 01010c08ffffffffff1f0020 = up 040e0401010c00
a host 010d20196000600000000b0000eeffc000180018000000480000000000 = up 040f0400010d20
a begin 0 = listen 37
a hear d6be898eadd45ca13d499970ede427 = send 37 \
    d6be898ea8f05da13d4999707e3111a669b7d1a23098aad09e5233d8a2980824833b038e5c0b4a6dc6c387
a unheard = idle open 0 central public 0a0000eeffc0 public 0b0000eeffc0 up \
    043e130100000000000b0000eeffc018000000480000
a unheard = idle
a end
a host 0119201c000001020304050607080a0b0f0e0d0c0b0a09080706050403020100 = up 040f0400011920
a host 0119201c000001020304050607080a0b0f0e0d0c0b0a09080706050403020100 = up 040f040c011920
a host 011a201200000f0e0d0c0b0a09080706050403020100 = up 040e06011a200c0000
a host 011b20020000 = up 040e06011b200c0000
a host 01060403000013 = up 040f0400010604
a host 0119201c000001020304050607080a0b0f0e0d0c0b0a09080706050403020100 = up 040f040c011920
start 1d123456
# That of a peripheral does not ask for it.
b host 01010c08ffffffffff1f0020 = up 040e0401010c00
b host 010a200101 = up 040e04010a2000
b begin 0 = send 37 d6be898eadd45ca13d499970ede427
b unheard = listen 37
b hear d6be898ea8f05da13d4999707e3111a669b7d1a23098aad09e5233d8a2980824833b038e5c0b4a6dc6c387 = \
    idle open 0 peripheral public 0b0000eeffc0 public 0a0000eeffc0 up \
    043e130100000001000a0000eeffc018000000480000
b host 0119201c000001020304050607080a0b0f0e0d0c0b0a09080706050403020100 = up 040f040c011920
b host 011b20020000 = up 040e06011b200c0000
start 1d123456
# LL_START_ENC_RSP that a peripheral does not await.
# It starts no encryption: the first one comes after it, and the host gets Encryption Change.
b host 01010c08ffffffffff9f0020 = up 040e0401010c00
b host 010a200101 = up 040e04010a2000
b begin 0 = send 37 d6be898eadd45ca13d499970ede427
b unheard = listen 37
b hear d6be898ea8f05da13d4999707e3111a669b7d1a23098aad09e5233d8a2980824833b038e5c0b4a6dc6c387 = \
    idle open 0 peripheral public 0b0000eeffc0 public 0a0000eeffc0 up \
    043e130100000001000a0000eeffc018000000480000
b unheard = idle
b end
b turns 1 2 =
b begin 2 = listen 25 enter 0 0 25
b hear 2941767152fb2c72dc1a = send 25 2941767154facde350 took 0 1 3 06
b unheard = idle
b unheard = idle
b end
b turns 3 26 =
b begin 26 = listen 20 enter 0 1 20
b hear 29417671fb426bceab1a68584a039aef16efaa42ee3fa2f0cc2d940d02ca0721 = send 20 \
    29417671fd55fa931e took 0 2 3 0301020304050607080a0b111213141516171821222324 up \
    043e0d05000001020304050607080a0b
b unheard = idle
b unheard = idle
b end
b turns 27 50 =
b begin 50 = listen 6 enter 0 2 6
b hear 29417671f79cae9061 = send 6 29417671f1919ec3d6c5442059dee18d1ba5af034877 sent 0 1 3 \
    04020000000000000002000000
b unheard = idle
b unheard = idle
b end
b host 011a201200000f0e0d0c0b0a09080706050403020100 = up 040e06011a20000000
b turns 51 74 =
b begin 74 = listen 21 enter 0 3 21
b hear 2941767130a727eac2 = send 21 2941767136a663bbd114 sent 0 2 3 05
b unheard = idle
b unheard = idle
b end
b turns 75 98 =
b begin 98 = listen 34 enter 0 4 34
b hear 29417671f10b9b89c4351ff56d10 = send 34 29417671f70e988b9f took 0 3 3 06 up 04080400000001
b unheard = idle
b unheard = idle
b end
b turns 99 122 =
b begin 122 = listen 36 enter 0 5 36
b hear 294176714920188456 = send 36 294176714f25295948547b8ab88b sent 0 3 3 06
b unheard = idle
b unheard = idle
b end
start 1d123456
# One that a central does not await.
a host 01010c08ffffffffff9f0020 = up 040e0401010c00
a host 010d20196000600000000b0000eeffc000180018000000480000000000 = up 040f0400010d20
a begin 0 = listen 37
a hear d6be898eadd45ca13d499970ede427 = send 37 \
    d6be898ea8f05da13d4999707e3111a669b7d1a23098aad09e5233d8a2980824833b038e5c0b4a6dc6c387
a unheard = idle open 0 central public 0a0000eeffc0 public 0b0000eeffc0 up \
    043e130100000000000b0000eeffc018000000480000
a unheard = idle
a end
a turns 1 2 =
a begin 2 = send 25 2941767150fa1ee550 enter 0 0 25
a unheard = listen 25
a hear 2941767156fb2c341db4 = idle took 0 1 3 06
a unheard = idle
a end
a host 0119201c000001020304050607080a0b0f0e0d0c0b0a09080706050403020100 = up 040f0400011920
a turns 3 26 =
a begin 26 = send 20 29417671fb426bceab1a68584a039aef16a88c43e72ab4e7d40db62e26adf3fa enter 0 1 \
    20 began 0 Encrypt sent 0 1 3 0301020304050607080a0b5634121d0000000001000000
a unheard = listen 20
a hear 29417671fd55fa931e = idle
a unheard = idle
a end
a turns 27 50 =
a begin 50 = send 6 29417671f79cae9061 enter 0 2 6
a unheard = listen 6
a hear 29417671f1919ef0e4f670156fe9d9ce59e6ebf608b5 = idle took 0 2 3 04313233343536373841424344
a unheard = idle
a end
a turns 51 74 =
a begin 74 = send 21 2941767130a727eac2 enter 0 3 21
a unheard = listen 21
a hear 2941767136a663bbd114 = idle took 0 3 3 05
a unheard = idle
a end
a turns 75 98 =
a begin 98 = send 34 29417671f10b5a7d455ba68df201 enter 0 4 34 sent 0 2 3 06
a unheard = listen 34
a hear 29417671f70e988b9f = idle
a unheard = idle
a end
a turns 99 122 =
a begin 122 = send 36 294176714920188456 enter 0 5 36
a unheard = listen 36
a hear 294176714f25210f490b84f7919e = idle took 0 4 3 06 done 0 Encrypt up 04080400000001
a unheard = idle
a end
";

#[test]
fn procedures(rt: HostRuntime) -> Result<(), AllocError> {
    check(&rt, rt.alloc(), PROCEDURES)
}
