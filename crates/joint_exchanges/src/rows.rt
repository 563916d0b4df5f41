//! Worked joint runs of exchanges, which the definitions compute.
ghost use Rattle.std.specs.Prelude.{◌≡◌};
ghost use Rattle.ble_base.specs.declared.channel_map.ChannelMap.{ChannelMap};
ghost use Rattle.joint_exchanges.specs.Runs.{GoesOn, moves_in};
ghost use Rattle.joint_exchanges.specs.Worked.{features_asked, features_moves, kept_moves, link_of};
ghost use Rattle.joint_exchanges.specs.Worked.{question_kept};

/// A central's exchange of features in a joint run is five moves, and the run goes on.
pub fn features_are_five_moves()
    ensures moves { (map : ChannelMap) → moves_in features_asked (link_of map) ≡ features_moves }
    ensures goes { (map : ChannelMap) → GoesOn features_asked (link_of map) }
{}

/// A central that starts encryption keeps LL_LENGTH_REQ, and takes it afterwards.
pub fn a_question_is_kept()
    ensures moves { (map : ChannelMap) → moves_in question_kept (link_of map) ≡ kept_moves }
    ensures goes { (map : ChannelMap) → GoesOn question_kept (link_of map) }
{}
