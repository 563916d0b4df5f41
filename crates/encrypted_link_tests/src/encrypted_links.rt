//! Links that encrypt, worked out by hand, turn by turn, with the sample data of Core 5.2, volume 6
//! part C, section 1. The sealed payloads that the standard does not have were made with another
//! program for AES-CCM.
use link_scripts::wrong_in;
use std::alloc::AllocError;

const LINKS: &str = "\
# The start of the sample data of Core 5.2, volume 6 part C, section 1.
air 2 = - - a b
a may_ask encrypt = yes
a ask encrypt
a may_ask encrypt = no
air 26 = 039078563412efcdab74241302f1e0dfcebdac24abdcba - a b
b awaits_key = yes
b key 27
b awaits_key = no
air 50 = - 047968574635241302bebaafde a b
air 51 = - 05 a b
air 74 = 9fcda7f448 - a b
air 98 = - a34c13a415 a b
a may_ask encrypt = yes
a give 1700636465666768696a6b6c6d6e6f707131323334353637383930 = yes
b give 170037363534333231304142434445464748494a4b4c4d4e4f5051 = yes
air 122 = 7a70d66415226df26b17839a060405596bd6564f796b5b9ce6ff32f75a6d33 \
    f38881e7bd94c9c369b9a66846dd4786aa8c39ce540d0dae3adcdf89b96088 a b
# Empty payloads stay so.
air 146 = - - a b
# What is lost is sent again as it was.
come secure
a give 1700636465666768696a6b6c6d6e6f707131323334353637383930 = yes
air 122 x = 7a70d66415226df26b17839a060405596bd6564f796b5b9ce6ff32f75a6d33 a b
b give 170037363534333231304142434445464748494a4b4c4d4e4f5051 = yes
air 146 . x = 7a70d66415226df26b17839a060405596bd6564f796b5b9ce6ff32f75a6d33 \
    f38881e7bd94c9c369b9a66846dd4786aa8c39ce540d0dae3adcdf89b96088 a b
air 170 = 7a70d66415226df26b17839a060405596bd6564f796b5b9ce6ff32f75a6d33 \
    f38881e7bd94c9c369b9a66846dd4786aa8c39ce540d0dae3adcdf89b96088 a b
air 194 = - - a b
# The host has no key: encryption is refused, and the link goes on.
come asked
b no_key 28
turn 50 = a enter 2 6 took 1 3 047968574635241302bebaafde b enter 2 6 sent 1 3 047968574635241302bebaafde
turn 51 = a took 2 3 110306 refused Encrypt 06 b sent 2 3 110306
a may_ask encrypt = yes
a give 010203 = yes
air 74 = 010203 - a b
# The host has another key: the first sealed PDU is forged.
come asked
b other_key 28
air 50 = - 047968574635241302bebaafde a b
air 51 = - 05 a b
air 74 = 9fcda7f448 a b ends 3d
# Data waits while an encryption starts.
come asked
a give 010203 = yes
air 50 = - 047968574635241302bebaafde a b
b key 51
air 74 = - 05 a b
air 98 = 9fcda7f448 - a b
air 122 = - a34c13a415 a b
air 146 = 6c72b6d74a242b - a b
# A request of the peripheral crosses LL_ENC_REQ: the central answers it once it is secure.
new
air 2 = - - a b
a ask encrypt
b ask length
turn 26 = a enter 1 20 began Encrypt sent 1 3 039078563412efcdab74241302f1e0dfcebdac24abdcba \
    took 1 3 14fb004808fb004808 b enter 1 20 began Length \
    took 1 3 039078563412efcdab74241302f1e0dfcebdac24abdcba sent 1 3 14fb004808fb004808
b key 27
air 50 = - 047968574635241302bebaafde a b
air 51 = - 05 a b
air 74 = 9fcda7f448 - a b
turn 98 = a enter 4 34 took 4 3 06 done Encrypt lengths 251 27 b enter 4 34 sent 4 3 06
air 122 = 788bb548785f0ad2038e8bad33 - a b
a lengths = (251, 27)
b lengths = (27, 251)
# A version that crosses it so is known as it is answered.
new
air 2 = - - a b
a ask encrypt
b ask version
air 26 = 039078563412efcdab74241302f1e0dfcebdac24abdcba 0c0bffff0100 a b
a knows_version = no
b key 27
air 50 = - 047968574635241302bebaafde a b
air 51 = - 05 a b
air 74 = 9fcda7f448 - a b
a knows_version = no
turn 98 = a enter 4 34 took 4 3 06 done Encrypt b enter 4 34 sent 4 3 06
a knows_version = yes
# A central keeps one request: a second one ends the link. So does, after LL_ENC_RSP, data or
# another LL_ENC_RSP.
new
air 2 = - - a b
a ask encrypt
b ask length
air 26 = 039078563412efcdab74241302f1e0dfcebdac24abdcba 14fb004808fb004808 a b
air 50 . 03160101 = - 047968574635241302bebaafde a ends 3d b
come keyed
air 50 = - 047968574635241302bebaafde a b
air 51 . 02010203 = - 05 a ends 3d b
come keyed
air 50 = - 047968574635241302bebaafde a b
air 51 . 03047968574635241302bebaafde = - 05 a ends 3d b
# Encryption is paused, and starts again with another key.
come secure
a ask other
air 122 = 6705b5b139 - a b
air 146 = - ef83ed096c a b
air 170 = 0b - a b
air 194 = 039078563412efcdab74241302f1e0dfcebdac24abdcba - a b
b awaits_key = yes
b other_key 195
air 218 = - 047968574635241302bebaafde a b
air 219 = - 05 a b
air 242 = 69f4f364c2 - a b
air 266 = - 295c582663 a b
a give 010203 = yes
air 290 = 7d9d9c2e142077 - a b
# The host has no key after a pause: the link ends.
come again
b awaits_key = yes
b no_key 195
air 218 = - 047968574635241302bebaafde a b
air 219 = - 0206 a b
air 242 = - a ends 06 b ends 16
# In Secure a peripheral does not know LL_ENC_REQ.
come secure
air 122 036ee0cd564456e557a909cce5699b8af6d45ac858e682d7e8a7ea1e = - - a b
air 146 = - e38bc1d58f6c a b
# Nor does a central know LL_PAUSE_ENC_REQ.
come secure
air 122 . 03ee74e21575 = - - a b
air 146 = 6a7ac405e03b - a b
";

#[test]
fn encrypted_links_turn_by_turn(rt: HostRuntime) -> Result<(), AllocError> {
    let wrong = wrong_in(rt.alloc(), LINKS)?;
    assert_eq!(rt; wrong.as_str(), "");
    Ok(())
}
