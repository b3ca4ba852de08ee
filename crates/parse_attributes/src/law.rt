//! What reading attributes and deriving them have to do with each other.
ghost use Rattle.parse_attributes.specs.Laws.{AttributesHold, AttributesHoldOfWords};

/// What is read is derived, and what is derived is read, of tokens and of words alone.
pub fn law()
    ensures attributes { AttributesHold }
    ensures words { AttributesHoldOfWords }
{
    parse_expressions::law::law();
}
