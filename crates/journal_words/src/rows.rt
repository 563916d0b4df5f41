//! Worked examples, which the definitions compute.
ghost use Rattle.std.specs.Prelude.{◌≡◌};
ghost use Rattle.ble_base.specs.declared.roles.Side.TheVariants.{A, B};
ghost use Rattle.journal_controls.specs.run_model.Rows.{one_connection_journal};
ghost use Rattle.journal_words.specs.Drawn.{drawn_on, response_on};
ghost use Rattle.journal_words.specs.Rows.{rand_asked, rand_given, rand_given_again, three_words};

/// The central draws one word for its CONNECT_IND, and one for each LE Rand, at the line of its
/// Command Complete with status 00; the peripheral draws none. Of three words the central has drawn
/// all, and would begin again with the first.
pub fn worked_words()
    ensures central { drawn_on three_words B one_connection_journal ≡ 1 }
    ensures peripheral { drawn_on three_words A rand_given_again ≡ 0 }
    ensures asked { drawn_on three_words B rand_asked ≡ 1 }
    ensures given { drawn_on three_words B rand_given ≡ 2 }
    ensures again { drawn_on three_words B rand_given_again ≡ 3 }
    ensures next { response_on three_words B rand_given_again
        ≡ record { skd_s = 0x11; iv_s = 0x22 } }
{}
